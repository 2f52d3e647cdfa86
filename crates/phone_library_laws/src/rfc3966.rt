//! The text of RFC 3966 of a number is read as the number.
ghost use Rattle.std.specs.Prelude.{◌≡◌, ◌↔◌, List, None, Option, Some, Ok, chars, true, ℕ};
ghost use Rattle.phone_values.specs.declared.country.Id.{Id};
ghost use Rattle.phone_values.specs.declared.mode.Mode.TheVariants as mode;
ghost use Rattle.phone_values.specs.declared.reading.Reading.{Reading};
ghost use Rattle.phone_library.specs.Readings.{ReadsByLibrary};
ghost use Rattle.phone_library_laws.specs.Again.{IsSettled};
ghost use Rattle.phone_read.specs.TransformRules.{rules_have_no_plus};
ghost use Rattle.phone_records.specs.declared.loader.Metadata as loader;
ghost use Rattle.phone_library.specs.Printed.{printed_by};
ghost use Rattle.phone_values.specs.declared.rules.Rules.{Rules};
ghost use Rattle.phone_library_laws.specs.Coded.{IsCoded, IsLeftAlone};
ghost use Rattle.phone_library_laws.specs.Plain.{IsPlainRfc3966};
ghost use Rattle.phone_library_laws.specs.Printed.{printed_reading, uncarried};

/// The text of RFC 3966 of a number, by the layout that either rules choose, is read, under any
/// hint, as the number without its carrier: the same calling code, told by the plus sign, the same
/// national number with its leading zeros, and the same extension, or none. The text names no
/// context: its number is a global one.
///
/// The number is settled, as for its E.164 text. Besides, the text is plain: the digits are laid
/// out whole, with separators between them, which are printed as hyphens, and a digit is the last
/// of them; the extension, if there is one, is at most twenty digits of any script, as `;ext=`
/// announces no more; and the text has at most 250 characters, as longer ones are refused.
///
/// Where no transform rule has a plus sign, it is read so only where nothing is stripped off: if
/// something is, a plain number that is else settled is read as another, or refused, under each
/// hint.
pub fn rfc3966_again()
    ensures again { (rules : Rules) (db : List loader.Metadata) (hint : Option Id) (n : Reading)
        (text : List ℕ) → IsSettled db n → IsPlainRfc3966 rules db (uncarried n) →
        printed_by rules db mode.Rfc3966 (uncarried n) ≡ Some text →
        ReadsByLibrary db hint (chars text) (Ok (printed_reading n)) }
    ensures exactly { (rules : Rules) (db : List loader.Metadata) (hint : Option Id) (n : Reading)
        (text : List ℕ) → IsCoded db n → IsPlainRfc3966 rules db (uncarried n) →
        rules_have_no_plus db ≡ true →
        printed_by rules db mode.Rfc3966 (uncarried n) ≡ Some text →
        (ReadsByLibrary db hint (chars text) (Ok (printed_reading n)) ↔ IsLeftAlone db n) }
{}
