//! That what is shown of a number while it is typed is read as the keys are.
ghost use Rattle.std.specs.Prelude.{◌≡◌, ◌≤◌, ◌∷◌, ℕ, List, Option, Result, length, true};
ghost use Rattle.std.specs.List.{list_all};
ghost use Rattle.phone_chars.specs.Characters.{is_digit};
ghost use Rattle.phone_values.specs.declared.country.Id.{Id};
ghost use Rattle.phone_values.specs.declared.error.ParseError.{ParseError};
ghost use Rattle.phone_values.specs.declared.reading.Reading.{Reading};
ghost use Rattle.phone_library.specs.Readings.{ReadsByLibrary};
ghost use Rattle.phone_library_text.specs.Written.{most_characters};
ghost use Rattle.phone_records.specs.declared.loader.Metadata as loader;
ghost use Rattle.phone_typed.specs.Typed.{typed};

use phone_typed::laws;

/// Every beginning is read as the keys are, by libphonenumber's rules and under any hint: of three
/// digits or more, with a plus sign before them or without, what is shown is read as the same
/// number, or refused for the same reason. It has at most 250 characters.
pub fn every_beginning_is_read()
    ensures signed { (db : List loader.Metadata) (hint other : Option Id) (digits : List ℕ) →
        list_all is_digit digits ≡ true → 3 ≤ length digits →
        length (typed db hint (43 ∷ digits)) ≤ most_characters →
        (r : Result Reading ParseError) → ReadsByLibrary db other (43 ∷ digits) r →
        ReadsByLibrary db other (typed db hint (43 ∷ digits)) r }
    ensures unsigned { (db : List loader.Metadata) (hint other : Option Id) (digits : List ℕ) →
        list_all is_digit digits ≡ true → 3 ≤ length digits →
        length (typed db hint digits) ≤ most_characters →
        (r : Result Reading ParseError) → ReadsByLibrary db other digits r →
        ReadsByLibrary db other (typed db hint digits) r }
{
    laws::shown_is_written_as_keys();
}
