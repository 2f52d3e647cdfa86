//! The international text of a number is read as the number.
ghost use Rattle.std.specs.Prelude.{◌≡◌, ◌↔◌, List, None, Option, Some, Ok, chars, true, ℕ};
ghost use Rattle.phone_values.specs.declared.country.Id.{Id};
ghost use Rattle.phone_values.specs.declared.mode.Mode.TheVariants as mode;
ghost use Rattle.phone_values.specs.declared.reading.Reading.{Reading};
ghost use Rattle.phone_library.specs.Readings.{ReadsByLibrary};
ghost use Rattle.phone_library_laws.specs.Again.{IsSettled};
ghost use Rattle.phone_read.specs.TransformRules.{rules_have_no_plus};
ghost use Rattle.phone_records.specs.declared.loader.Metadata as loader;
ghost use Rattle.phone_library.specs.Printed.{printed_by};
ghost use Rattle.phone_values.specs.declared.rules.Rules.{Rules};
ghost use Rattle.phone_library_laws.specs.Coded.{IsCoded, IsLeftAlone};
ghost use Rattle.phone_library_laws.specs.Plain.{IsPlainInternational};
ghost use Rattle.phone_library_laws.specs.Printed.{printed_reading, uncarried};

/// The international text of a number, by the layout that either rules choose, is read, under any
/// hint, as the number without its carrier: the same calling code, told by the plus sign, the same
/// national number with its leading zeros, and the same extension, or none.
///
/// The number is settled, as for its E.164 text: its code is listed and has at most three digits,
/// and no listed code begins another, so that the code is found again; the national number has 2 to
/// 17 digits, as others are refused; and the code's first territory strips nothing off them.
/// Besides, the text is plain:
///
/// - The digits are laid out whole, with punctuation between them that announces nothing: an `x` or
///   a tilde may begin an extension, and another digit counts as one of the number.
/// - A digit is the last of them, as the announcement of the extension takes in spaces before it.
/// - The extension, if there is one, is digits of any script, and the territory's prefix announces
///   so many; no slash or semicolon stands in that, which may end the number. By `prefixes` those
///   of the world's territories do.
/// - The text has at most 250 characters, as longer ones are refused, and what the layout wrote is
///   UTF-8, as every text of a record is.
///
/// Where no transform rule has a plus sign, it is read so only where nothing is stripped off: if
/// something is, a plain number that is else settled is read as another, or refused, under each
/// hint.
pub fn international_again()
    ensures again { (rules : Rules) (db : List loader.Metadata) (hint : Option Id) (n : Reading)
        (text : List ℕ) → IsSettled db n → IsPlainInternational rules db (uncarried n) →
        printed_by rules db mode.International (uncarried n) ≡ Some text →
        ReadsByLibrary db hint (chars text) (Ok (printed_reading n)) }
    ensures exactly { (rules : Rules) (db : List loader.Metadata) (hint : Option Id) (n : Reading)
        (text : List ℕ) → IsCoded db n → IsPlainInternational rules db (uncarried n) →
        rules_have_no_plus db ≡ true →
        printed_by rules db mode.International (uncarried n) ≡ Some text →
        (ReadsByLibrary db hint (chars text) (Ok (printed_reading n)) ↔ IsLeftAlone db n) }
{}
