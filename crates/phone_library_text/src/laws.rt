//! What holds of the definitions of a written number. These functions do nothing; their contracts
//! are the statements.
ghost use Rattle.std.specs.Prelude.{◌≡◌, ◌≤◌, ◌∷◌, ℕ, List, length, Result, Ok, None, true, false};
ghost use Rattle.std.specs.List.{list_all, list_any};
ghost use Rattle.phone_chars.specs.Characters.{is_digit, is_in_run, is_nd};
ghost use Rattle.phone_values.specs.declared.error.ParseError.{ParseError};
ghost use Rattle.phone_library_text.specs.Letters.{zeros};
ghost use Rattle.phone_library_text.specs.Written.{IsWritten, most_characters};
ghost use Rattle.phone_library_text.specs.declared.written.WrittenNumber.{WrittenNumber};

/// A text has at most one written number, or one reason why it has none.
pub fn one_written()
    ensures { (text : List ℕ) (a b : Result WrittenNumber ParseError) → IsWritten text a →
        IsWritten text b → a ≡ b }
{}

/// Each text has one.
pub fn some_written()
    ensures { (text : List ℕ) → (r : Result WrittenNumber ParseError) × IsWritten text r }
{}

/// Three ASCII digits and more are a number, with a plus sign before them or without.
pub fn plain_written()
    ensures international { (digits : List ℕ) → list_all is_digit digits ≡ true →
        3 ≤ length digits → length (43 ∷ digits) ≤ most_characters → IsWritten (43 ∷ digits)
        (Ok (record { has_plus = true; digits = digits; extension = None })) }
    ensures national { (digits : List ℕ) → list_all is_digit digits ≡ true → 3 ≤ length digits →
        length digits ≤ most_characters → IsWritten digits
        (Ok (record { has_plus = false; digits = digits; extension = None })) }
{}

/// A character is a decimal digit exactly where it is one of the ten from one of the zeros on: so
/// none of Unicode's zeros is missing among these.
pub fn zeros_are_all()
    ensures { (c : ℕ) → is_nd c ≡ list_any (λ zero. is_in_run zero c) zeros }
{}
