//! The E.164 text is a key of the numbers that are read.
ghost use Rattle.std.specs.Prelude.{◌≡◌, ◌↔◌, List, true};
ghost use Rattle.phone_values.specs.declared.reading.Reading.{Reading};
ghost use Rattle.phone_plans.specs.CodeLookUps.{is_prefix_free};
ghost use Rattle.phone_print.specs.Texts.{e164_text};
ghost use Rattle.phone_records.specs.declared.loader.Metadata as loader;
ghost use Rattle.phone_library_laws.specs.Keys.{IsReadByEither};

/// The E.164 text is a key of the numbers that are read, each by the crate's rules or by
/// libphonenumber's, and under any hint: where no listed code begins another, two of them have one
/// E.164 text if and only if they have one calling code and one national number. What told the
/// code, extension and carrier play no part.
pub fn key()
    ensures { (db : List loader.Metadata) (a b : Reading) → is_prefix_free db ≡ true →
        IsReadByEither db a → IsReadByEither db b →
        ((e164_text a ≡ e164_text b) ↔
        ((a.code.value ≡ b.code.value) × (a.national ≡ b.national))) }
{}
