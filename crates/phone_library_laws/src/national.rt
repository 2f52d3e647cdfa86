//! The national text of a number is read, inside its territory, as the number.
ghost use Rattle.std.specs.Prelude.{◌≡◌, ◌↔◌, List, None, Option, Some, Ok, chars, true, ℕ};
ghost use Rattle.phone_values.specs.declared.country.Id.{Id};
ghost use Rattle.phone_values.specs.declared.mode.Mode.TheVariants as mode;
ghost use Rattle.phone_values.specs.declared.reading.Reading.{Reading};
ghost use Rattle.phone_library.specs.Facts.{region_of_number};
ghost use Rattle.phone_library.specs.Readings.{ReadsByLibrary, stripped};
ghost use Rattle.phone_read.specs.Hints.{hinted};
ghost use Rattle.phone_read.specs.TransformRules.{rules_have_no_plus};
ghost use Rattle.phone_records.specs.declared.loader.Metadata as loader;
ghost use Rattle.phone_library.specs.Printed.{printed_by};
ghost use Rattle.phone_values.specs.declared.rules.Rules.{Rules};
ghost use Rattle.phone_library_laws.specs.Plain.{IsDialledInside, IsLaidNational};
ghost use Rattle.phone_library_laws.specs.Plain.{IsPlainNational};
ghost use Rattle.phone_library_laws.specs.Printed.{inside_reading, uncarried};

/// The national text of a number, by the layout that either rules choose, is read, under a hint
/// whose territory has the number's code, as the number: the same calling code, which is the
/// hint's, the same national number with its leading zeros, and the same extension, or none. The
/// carrier is what stripping finds, as the text shows none. The number's own region is such a hint,
/// where the database has it.
///
/// The text is plain:
///
/// - It is laid out as an international text must be, but the layout may write digits before those
///   of the number, such as a national prefix, and brackets may stand at the front.
/// - There are three digits at least; or two that stand side by side, and no extension: `1-2` and
///   `12 ext. 3` have no number in them, as two digits are one only where they stand alone.
/// - The territory's international prefix doesn't match at their front, as a code would be read
///   behind it; they aren't taken for a number that begins with the calling code; and what the
///   territory strips off them leaves the national number.
/// - The national number has 2 to 17 digits, as others are refused.
/// - The extension, if there is one, is announced as in an international text, and the text has at
///   most 250 characters.
///
/// Where no transform rule has a plus sign, a text that is laid out so is read as the number only
/// where the digits are dialled so: the third and the fourth of these hold, and the code is the
/// territory's.
pub fn national_again()
    ensures inside { (rules : Rules) (db : List loader.Metadata) (hint : Option Id)
        (m : loader.Metadata) (n : Reading) (text : List ℕ) → hinted db hint ≡ Some m →
        (plain : IsPlainNational rules db m (uncarried n)) →
        printed_by rules db mode.National (uncarried n) ≡ Some text →
        ReadsByLibrary db hint (chars text)
        (Ok (inside_reading n (stripped (Some m) plain.layout.digits).carrier)) }
    ensures own_region { (rules : Rules) (db : List loader.Metadata) (m : loader.Metadata)
        (n : Reading) (text : List ℕ) → hinted db (region_of_number db n) ≡ Some m →
        (plain : IsPlainNational rules db m (uncarried n)) →
        printed_by rules db mode.National (uncarried n) ≡ Some text →
        ReadsByLibrary db (region_of_number db n) (chars text)
        (Ok (inside_reading n (stripped (Some m) plain.layout.digits).carrier)) }
    ensures exactly { (rules : Rules) (db : List loader.Metadata) (hint : Option Id)
        (m : loader.Metadata) (n : Reading) (text : List ℕ) → hinted db hint ≡ Some m →
        (layout : IsLaidNational rules db (uncarried n)) → rules_have_no_plus db ≡ true →
        printed_by rules db mode.National (uncarried n) ≡ Some text →
        (ReadsByLibrary db hint (chars text)
        (Ok (inside_reading n (stripped (Some m) layout.digits).carrier)) ↔
        IsDialledInside m (uncarried n) layout.digits) }
{}
