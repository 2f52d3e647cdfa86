//! That each text has one reading, and what a plus sign does for it.
ghost use Rattle.std.specs.Prelude.{◌≡◌, ◌⊎◌, ℕ, List, Option, None, Result, Ok, Err};
ghost use Rattle.std.specs.Prelude.{true, false};
ghost use Rattle.phone_values.specs.declared.country.Id.{Id};
ghost use Rattle.phone_values.specs.declared.error.ParseError.{ParseError};
ghost use Rattle.phone_values.specs.declared.error.ParseError.TheVariants as refusal;
ghost use Rattle.phone_values.specs.declared.reading.Reading.{Reading};
ghost use Rattle.phone_library.specs.Readings.{ReadsByLibrary, reading_under};
ghost use Rattle.phone_library_laws.specs.Signs.{is_told_by_sign, without_sign};
ghost use Rattle.phone_library_text.specs.Written.{IsWritten};
ghost use Rattle.phone_library_text.specs.declared.written.WrittenNumber.{WrittenNumber};
ghost use Rattle.phone_read.specs.Hints.{hinted};
ghost use Rattle.phone_records.specs.declared.loader.Metadata as loader;

use phone_library_text::laws;

/// A text has at most one reading, under each database and hint.
pub fn one_reading()
    ensures { (db : List loader.Metadata) (hint : Option Id) (text : List ℕ)
        (a b : Result Reading ParseError) → ReadsByLibrary db hint text a →
        ReadsByLibrary db hint text b → a ≡ b }
{
    laws::one_written();
}

/// Each text has a reading, under each database and hint.
pub fn some_reading()
    ensures { (db : List loader.Metadata) (hint : Option Id) (text : List ℕ) →
        (r : Result Reading ParseError) × ReadsByLibrary db hint text r }
{
    laws::some_written();
}

/// A text that begins with a plus sign and, after it, a listed calling code is read alike under
/// every hint, and so is one with at most two digits after the sign.
///
/// Exactly these are: in any other text the code is the hint's to tell. Without a territory of the
/// hint such a text is refused; with one, a number with a plus sign is refused as well, or it is
/// read as without the sign.
pub fn plus_sign()
    ensures alike { (db : List loader.Metadata) (hint other : Option Id) (text : List ℕ)
        (a b : Result Reading ParseError) →
        ((w : WrittenNumber) → IsWritten text (Ok w) → is_told_by_sign db w ≡ true) →
        ReadsByLibrary db hint text a → ReadsByLibrary db other text b → a ≡ b }
    ensures refused { (db : List loader.Metadata) (hint : Option Id) (text : List ℕ)
        (w : WrittenNumber) (a : Result Reading ParseError) → IsWritten text (Ok w) →
        is_told_by_sign db w ≡ false → hinted db hint ≡ None → ReadsByLibrary db hint text a →
        a ≡ Err refusal.InvalidCountryCode }
    ensures tried_again { (db : List loader.Metadata) (hint : Option Id) (text : List ℕ)
        (w : WrittenNumber) (a : Result Reading ParseError) → IsWritten text (Ok w) →
        w.has_plus ≡ true → is_told_by_sign db w ≡ false → ReadsByLibrary db hint text a →
        (a ≡ Err refusal.InvalidCountryCode) ⊎
        (a ≡ reading_under db (hinted db hint) (without_sign w)) }
{
    laws::one_written();
}
