//! What holds of dialled numbers. These functions do nothing; their contracts are the statements.
ghost use Rattle.std.specs.Prelude.{◌≡◌, ◌≤◌, ℕ, List, IsUtf8, None, Some, Ok, chars, length};
ghost use Rattle.phone_values.specs.Ids.{name};
ghost use Rattle.phone_values.specs.declared.country.Id.{Id};
ghost use Rattle.phone_values.specs.declared.country.Source.TheVariants as source;
ghost use Rattle.phone_library.specs.Readings.{ReadsByLibrary, stripped};
ghost use Rattle.phone_library_text.specs.Written.{most_characters};
ghost use Rattle.phone_library_laws.specs.Plain.{IsPlainNational};
ghost use Rattle.phone_library_laws.specs.Printed.{inside_reading};
ghost use Rattle.phone_plans.specs.Records.{last_with};
ghost use Rattle.phone_records.specs.declared.loader.Metadata as loader;
ghost use Rattle.phone_values.specs.declared.reading.Reading.{Reading};
ghost use Rattle.phone_values.specs.declared.rules.Rules.TheVariants as rules;
ghost use Rattle.phonenumber.specs.Bounds.{IsBounded};
ghost use Rattle.phone_engine.specs.Back.{IsAfterPlus, IsAfterPrefix, IsPlainDialled, IsReadUnder};
ghost use Rattle.phone_engine.specs.Dialled.{dialled_prefix, dialled_text};
ghost use Rattle.phone_engine.specs.LibraryBack.{IsSettledDialled, dialled_reading};

/// A number that is dialled from a region with an international prefix of digits is read back with
/// that region as hint: to its code, which was found by the prefix, its national number and its
/// extension. It has another code than the region, is plain for international text, and the rules
/// of the region's territory leave its digits alone; in front of all digits that are dialled the
/// territory's pattern of international prefixes finds just the prefix.
///
/// The bounds, and that a text is UTF-8, every `PhoneNumber` and every `String` keeps.
pub fn prefix_back()
    ensures { (db : List loader.Metadata) (region : Id) (n : Reading) (text : List ℕ) →
        IsBounded n → IsUtf8 text → (plain : IsPlainDialled db region n) →
        IsAfterPrefix plain.from n → dialled_text db region n ≡ Ok text →
        IsReadUnder db region (chars text) n source.Idd }
{}

/// The same of a number before which a plus sign is written: its code was found by that. No
/// international prefix of the territory stands in front of its code and digits.
pub fn plus_back()
    ensures { (db : List loader.Metadata) (region : Id) (n : Reading) (text : List ℕ) →
        IsBounded n → IsUtf8 text → (plain : IsPlainDialled db region n) →
        IsAfterPlus plain.from n → dialled_text db region n ≡ Ok text →
        IsReadUnder db region (chars text) n source.Plus }
{}

/// By libphonenumber's rules a number that is dialled from a region is read, with that region as
/// hint, as the number: its calling code, its national number with leading zeros, and its
/// extension.
///
/// From a region of another code the number is settled and plain for international text, as for
/// reading that back (`phone_library_laws`). Behind an international prefix of digits, which the
/// territory's pattern finds in front of all digits that are dialled, neither more nor less, its
/// code is found by the prefix; the text has at most 250 characters. Where a plus sign is written,
/// the code is found by that, whatever the pattern finds. From a region of the number's code, the
/// text is the national text, which is plain there. That the region's own rules leave the digits
/// alone is asked only there: behind a prefix the code's first territory strips.
pub fn dialled_again()
    ensures prefix { (db : List loader.Metadata) (region : Id) (n : Reading) (text : List ℕ) →
        (dialled : IsSettledDialled db region n) → IsAfterPrefix dialled.from n →
        dialled_text db region n ≡ Ok text → length (chars text) ≤ most_characters →
        ReadsByLibrary db (Some region) (chars text) (Ok (dialled_reading source.Idd n)) }
    ensures plus { (db : List loader.Metadata) (region : Id) (n : Reading) (text : List ℕ) →
        (dialled : IsSettledDialled db region n) → dialled_prefix dialled.from ≡ None →
        dialled_text db region n ≡ Ok text →
        ReadsByLibrary db (Some region) (chars text) (Ok (dialled_reading source.Plus n)) }
    ensures inside { (db : List loader.Metadata) (region : Id) (from : loader.Metadata)
        (n : Reading) (text : List ℕ) → last_with (name region) db ≡ Some from →
        (plain : IsPlainNational rules.Crate db from n) → dialled_text db region n ≡ Ok text →
        ReadsByLibrary db (Some region) (chars text)
        (Ok (inside_reading n (stripped (Some from) plain.layout.digits).carrier)) }
{}
