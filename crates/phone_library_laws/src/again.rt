//! What is read, and that a number's E.164 text is read as the number.
ghost use Rattle.std.specs.Prelude.{◌≡◌, ◌≤◌, ℕ, List, Option, Ok, chars, length, true};
ghost use Rattle.phone_values.specs.Numbers.{IsHeld, text_of};
ghost use Rattle.phone_values.specs.declared.country.Id.{Id};
ghost use Rattle.phone_values.specs.declared.reading.Reading.{Reading};
ghost use Rattle.phone_library.specs.Readings.{ReadsByLibrary};
ghost use Rattle.phone_library_laws.specs.Again.{IsSettled, IsSettledIfRead, e164_reading};
ghost use Rattle.phone_plans.specs.CodeLookUps.{is_listed};
ghost use Rattle.phone_print.specs.Texts.{e164_text};
ghost use Rattle.phone_read.specs.TransformRules.{rules_have_no_plus};
ghost use Rattle.phone_records.specs.declared.loader.Metadata as loader;

use phone_library_text::laws;

/// The calling code of a number that was read is listed, and where no transform rule of the
/// database has a plus sign, its national number has 2 to 17 digits. A plus sign that a rule wrote
/// would be counted when the digits are read, and not be printed.
pub fn what_is_read()
    ensures listed { (db : List loader.Metadata) (hint : Option Id) (text : List ℕ)
        (n : Reading) → rules_have_no_plus db ≡ true → ReadsByLibrary db hint text (Ok n) →
        is_listed n.code.value db ≡ true }
    ensures held { (db : List loader.Metadata) (hint : Option Id) (text : List ℕ)
        (n : Reading) → rules_have_no_plus db ≡ true → ReadsByLibrary db hint text (Ok n) →
        IsHeld n.national }
    ensures long_enough { (db : List loader.Metadata) (hint : Option Id) (text : List ℕ)
        (n : Reading) → rules_have_no_plus db ≡ true → ReadsByLibrary db hint text (Ok n) →
        2 ≤ length (text_of n.national) }
    ensures short_enough { (db : List loader.Metadata) (hint : Option Id) (text : List ℕ)
        (n : Reading) → rules_have_no_plus db ≡ true → ReadsByLibrary db hint text (Ok n) →
        length (text_of n.national) ≤ 17 }
{}

/// The E.164 text of a number is read, under any hint, as the number without extension and carrier:
/// the same calling code, told by the plus sign, and the same national number with its leading
/// zeros. The code is listed and has at most three digits, no listed code begins another, the
/// national number has 2 to 17 digits, and the code's first territory strips nothing off them. The
/// national number may be of zeros alone.
pub fn e164_again()
    ensures { (db : List loader.Metadata) (hint : Option Id) (n : Reading) → IsSettled db n →
        ReadsByLibrary db hint (chars (e164_text n)) (Ok (e164_reading n)) }
{
    laws::plain_written();
}

/// A number that was read under one hint is read again from its E.164 text under any other, where
/// its code has at most three digits, no listed code begins another, no transform rule has a plus
/// sign, and the code's first territory strips nothing off the national number.
pub fn read_twice()
    ensures { (db : List loader.Metadata) (hint other : Option Id) (text : List ℕ) (n : Reading) →
        rules_have_no_plus db ≡ true → IsSettledIfRead db n → ReadsByLibrary db hint text (Ok n) →
        ReadsByLibrary db other (chars (e164_text n)) (Ok (e164_reading n)) }
{
    laws::plain_written();
}
