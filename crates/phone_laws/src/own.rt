//! What holds of libphonenumber's area codes, and of our own answers (`phone_further`). These
//! functions do nothing; their contracts are the statements.
ghost use Rattle.std.specs.Prelude.{◌≡◌, ℕ, List, true, Some, chars};
ghost use Rattle.phone_values.specs.Numbers.{text_of};
ghost use Rattle.phone_values.specs.Validations.{is_possible};
ghost use Rattle.phone_values.specs.declared.kind.«Type».TheVariants as kind;
ghost use Rattle.phone_values.specs.declared.reading.Reading.{Reading};
ghost use Rattle.phone_library.specs.Facts.{is_valid_number, kind_of_number};
ghost use Rattle.phone_library.specs.Facts.{territory_of_number};
ghost use Rattle.phone_plans.specs.CodeLookUps.{first_of, territories};
ghost use Rattle.phone_records.specs.declared.loader.Metadata as loader;
ghost use Rattle.phone_questions.specs.Groups.{area_length, destination_length, has_token};
ghost use Rattle.phone_questions.specs.Groups.{laid_abroad};
ghost use Rattle.phone_questions.specs.Belonging.{own_territory};
ghost use Rattle.phone_questions.specs.declared.matches.NumberMatch.{NumberMatch};
ghost use Rattle.phone_laws.specs.AreaCodes.{IsBeginning, KeepsDigits};
ghost use Rattle.phone_laws.specs.AreaCodes.{destination_digits};
ghost use Rattle.phone_further.specs.Matches.{match_numbers};
ghost use Rattle.phone_further.specs.Possible.{possibility_of};
ghost use Rattle.phone_further.specs.TextMatches.{AreTextsMatch, match_guessed};

use phone_library_laws::facts;
use phone_library_text::laws as text_laws;

/// The destination code is a beginning of the national number: its digits are the groups in front
/// of the number as it is laid out, as many as its length says. So is the area code. It holds where
/// the first territory of the calling code lays the number out with its digits in their order; a
/// layout may write other digits, as Argentina's does.
pub fn area_code_begins()
    ensures destination { (db : List loader.Metadata) (n : Reading) (m : loader.Metadata) →
        first_of (territories n.code.value db) ≡ Some m → KeepsDigits m n →
        IsBeginning n (destination_length db n)
        (destination_digits (has_token (kind_of_number db n) n.code.value)
        (chars (laid_abroad m (text_of n.national)))) }
    ensures area { (db : List loader.Metadata) (n : Reading) (m : loader.Metadata) →
        first_of (territories n.code.value db) ≡ Some m → KeepsDigits m n →
        (front : List ℕ) × IsBeginning n (area_length db n) front }
{}

/// Two numbers are as like in one order as in the other.
pub fn swapped_numbers()
    ensures { (a b : Reading) → match_numbers a b ≡ match_numbers b a }
{}

/// Two texts are as like in one order as in the other.
pub fn swapped_texts()
    ensures { (db : List loader.Metadata) (t u : List ℕ) (x : NumberMatch) →
        AreTextsMatch match_numbers match_guessed db t u x →
        AreTextsMatch match_numbers match_guessed db u t x }
{
    text_laws::some_written();
}

/// A valid number is possible, where its territory is the one that its region has.
pub fn valid_is_possible()
    ensures { (db : List loader.Metadata) (n : Reading) (m : loader.Metadata) →
        is_valid_number db n ≡ true → own_territory db n ≡ Some m →
        territory_of_number db n ≡ Some m →
        is_possible (possibility_of db kind.Unknown n) ≡ true }
{
    facts::valid_is_possible();
}
