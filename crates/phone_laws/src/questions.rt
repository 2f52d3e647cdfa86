//! What holds of libphonenumber's further questions (`phone_questions`). These functions do
//! nothing; their contracts are the statements.
ghost use Rattle.std.specs.Prelude.{◌≡◌, ◌⊎◌, ℕ, List, true, Some};
ghost use Rattle.phone_values.specs.Validations.{is_possible};
ghost use Rattle.phone_values.specs.declared.kind.«Type».TheVariants as kind;
ghost use Rattle.phone_values.specs.declared.reading.Reading.{Reading};
ghost use Rattle.phone_library.specs.Facts.{is_valid_number, territory_of_number};
ghost use Rattle.phone_plans.specs.CodeLookUps.{first_of, territories};
ghost use Rattle.phone_records.specs.declared.loader.Metadata as loader;
ghost use Rattle.phonenumber.specs.Bounds.{IsBounded};
ghost use Rattle.phone_questions.specs.Letters.{with_keys};
ghost use Rattle.phone_questions.specs.Matches.{match_of};
ghost use Rattle.phone_questions.specs.Possible.{possibility_as};
ghost use Rattle.phone_questions.specs.Truncation.{IsCutFrom, truncated};
ghost use Rattle.phone_questions.specs.declared.matches.NumberMatch.{NumberMatch};
ghost use Rattle.phone_questions.specs.declared.matches.NumberMatch.TheVariants as number_match;
ghost use Rattle.phone_further.specs.TextMatches.{AreTextsMatch, match_unsure};

use phone_library_laws::facts;
use phone_library_text::laws as text_laws;

/// Two numbers are as like in one order as in the other.
pub fn swapped_numbers()
    ensures { (a b : Reading) → match_of a b ≡ match_of b a }
{}

/// Two texts are as like in one order as in the other.
pub fn swapped_texts()
    ensures { (db : List loader.Metadata) (t u : List ℕ) (x : NumberMatch) →
        AreTextsMatch match_of match_unsure db t u x →
        AreTextsMatch match_of match_unsure db u t x }
{
    text_laws::some_written();
}

/// A number is exactly itself; one whose calling code isn't known has its own national number.
pub fn one_with_itself()
    ensures coded { (a : Reading) → ¬ (a.code.value ≡ 0) →
        match_of a a ≡ number_match.ExactMatch }
    ensures bare { (a : Reading) → a.code.value ≡ 0 → match_of a a ≡ number_match.NsnMatch }
{}

/// Letters turned to digits twice are digits turned once.
pub fn keys_once()
    ensures { (t : List ℕ) → with_keys (with_keys t) ≡ with_keys t }
{}

/// A valid number is possible, where its territory is the first one of its calling code.
pub fn valid_is_possible()
    ensures { (db : List loader.Metadata) (n : Reading) (m : loader.Metadata) →
        is_valid_number db n ≡ true → territory_of_number db n ≡ Some m →
        first_of (territories n.code.value db) ≡ Some m →
        is_possible (possibility_as db kind.Unknown n) ≡ true }
{
    facts::valid_is_possible();
}

/// What is left of a number is valid; it is the number but for digits that are cut off its end. Of
/// a valid number all is left.
pub fn truncated_is_front()
    ensures valid { (db : List loader.Metadata) (n t : Reading) → truncated db n ≡ Some t →
        is_valid_number db t ≡ true }
    ensures front { (db : List loader.Metadata) (n t : Reading) → IsBounded n →
        truncated db n ≡ Some t → (t ≡ n) ⊎ IsCutFrom n t }
    ensures whole { (db : List loader.Metadata) (n : Reading) → is_valid_number db n ≡ true →
        truncated db n ≡ Some n }
{}
