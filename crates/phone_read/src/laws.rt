//! What holds of the definitions of reading. The contracts of these functions are the statements;
//! the functions do nothing, but for one that runs the readers to show that each text has a
//! reading.
ghost use Rattle.std.specs.Prelude.{◌≡◌, ◌++◌, ℕ, List, chars, Option, Some, Result, Ok, true};
ghost use Rattle.std.specs.Fmt.{decimal};
ghost use Rattle.phone_values.specs.declared.country.Id.{Id};
ghost use Rattle.phone_values.specs.declared.error.ParseError.{ParseError};
ghost use Rattle.phone_records.specs.declared.loader.Metadata as loader;
ghost use Rattle.phone_plans.specs.CodeLookUps.{is_listed, shortest};
ghost use Rattle.phone_read.specs.CallingCodes.{code_of};
ghost use Rattle.phone_read.specs.Hints.{Coded};
ghost use Rattle.phone_read.specs.Readings.{Reads};
ghost use Rattle.phone_values.specs.declared.reading.Reading.{Reading};

use phone_chars::is_viable;
use phone_parts::parts;

/// A text has at most one reading, under each database and hint.
pub fn one_reading()
    ensures { (db : List loader.Metadata) (hint : Option Id) (text : List ℕ)
        (a b : Result Reading ParseError) → Reads db hint text a → Reads db hint text b → a ≡ b }
{}

/// The shortest listed code at the front of digits stands there in decimal, and is listed.
pub fn code_in_front()
    ensures front { (db : List loader.Metadata) (digits : List ℕ) (code : ℕ) →
        shortest db digits ≡ Some code → (rest : List ℕ) × (digits ≡ decimal code ++ rest) }
    ensures listed { (db : List loader.Metadata) (digits : List ℕ) (code : ℕ) →
        shortest db digits ≡ Some code → is_listed code db ≡ true }
{}

/// A calling code that was found is listed.
pub fn listed_code()
    ensures { (db : List loader.Metadata) (hint : Option Id) (national : List ℕ)
        (prefix : Option (List ℕ)) (c : Coded) → code_of db hint national prefix ≡ Ok c →
        is_listed c.value db ≡ true }
{}

/// Each text has a reading under each database and hint: the readers find its parts, and the rest
/// is told by cases.
pub fn some_reading(text: &str)
    ensures { (db : List loader.Metadata) (hint : Option Id) → (r : Result Reading ParseError) ×
        Reads db hint (chars text.now) r }
{
    if let Some(number) = parts(text) {
        let _viable = is_viable(number.national.as_str());
    }
}
