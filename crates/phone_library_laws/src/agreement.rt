//! Where both readings, the first after the original and the second by libphonenumber's rules, are
//! the same.
ghost use Rattle.std.specs.Prelude.{◌≡◌, ℕ, List, Option, None, Result, chars, Bool};
ghost use Rattle.phone_values.specs.declared.country.Id.{Id};
ghost use Rattle.phone_values.specs.declared.error.ParseError.{ParseError};
ghost use Rattle.phone_values.specs.declared.reading.Reading.{Reading};
ghost use Rattle.phone_library.specs.Readings.{ReadsByLibrary};
ghost use Rattle.phone_library_laws.specs.Agreement.{IsOwnNumber, IsReadAlike, IsSettledAlike};
ghost use Rattle.phone_library_laws.specs.Agreement.{IsStrippedAlike, digits_text};
ghost use Rattle.phone_library_laws.specs.Prefixes.{IsDialledAlike, IsHomeNumber};
ghost use Rattle.phone_print.specs.Texts.{e164_text};
ghost use Rattle.phone_read.specs.Hints.{Coded};
ghost use Rattle.phone_read.specs.Readings.{Reads};
ghost use Rattle.phone_records.specs.declared.loader.Metadata as loader;

use phone_library_text::laws;

/// Both readings of three ASCII digits and more, with a plus sign before them or without, are the
/// same where they find the same calling code and strip the same off what follows it, unless zeros
/// alone are left. The text has at most 250 characters.
pub fn read_alike()
    ensures { (db : List loader.Metadata) (hint : Option Id) (has_plus : Bool) (digits : List ℕ)
        (a b : Result Reading ParseError) → IsReadAlike db hint has_plus digits →
        Reads db hint (digits_text has_plus digits) a →
        ReadsByLibrary db hint (digits_text has_plus digits) b → a ≡ b }
{
    laws::one_written();
    laws::plain_written();
}

/// The E.164 text of a number that isn't 0 is read as one by both, the first without a hint and the
/// second under any, where the number is settled and the first reading strips nothing off it
/// either.
pub fn e164_alike()
    ensures { (db : List loader.Metadata) (hint : Option Id) (n : Reading)
        (a b : Result Reading ParseError) → IsSettledAlike db n →
        Reads db None (chars (e164_text n)) a → ReadsByLibrary db hint (chars (e164_text n)) b →
        a ≡ b }
{
    laws::one_written();
    laws::plain_written();
}

/// Both readings strip the same off what follows a calling code, as `read_alike` asks, where it is
/// dialled for a national number: alone, or behind the national prefix, which a parsing pattern, if
/// there is one, matches alone.
pub fn stripped_alike()
    ensures { (db : List loader.Metadata) (hint : Option Id) (c : Coded) →
        IsDialledAlike db hint c → IsStrippedAlike db hint c }
{}

/// ASCII digits that are dialled so in a territory are read as one by both, under its hint.
pub fn home_alike()
    ensures { (db : List loader.Metadata) (hint : Option Id) (digits : List ℕ)
        (a b : Result Reading ParseError) → IsHomeNumber db hint digits → Reads db hint digits a →
        ReadsByLibrary db hint digits b → a ≡ b }
{
    laws::one_written();
    laws::plain_written();
}

/// ASCII digits as they are dialled in a territory that has neither a national prefix nor a parsing
/// pattern are read as one by both, under the territory's hint.
pub fn own_alike()
    ensures { (db : List loader.Metadata) (hint : Option Id) (digits : List ℕ)
        (a b : Result Reading ParseError) → IsOwnNumber db hint digits → Reads db hint digits a →
        ReadsByLibrary db hint digits b → a ≡ b }
{
    laws::one_written();
    laws::plain_written();
}
