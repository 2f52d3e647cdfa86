//! A law of the texts of a language.
ghost use Rattle.std.specs.Prelude.{◌≡◌, ◌<◌, ◌⊎◌, ℕ, false, List, length, Option, Some};
ghost use Rattle.phone_languages.specs.Locales.{is_alone};
ghost use Rattle.phone_languages.specs.Told.{IsTextIn, IsTold};
ghost use Rattle.phone_prefixes.specs.Tables.{Entry};

/// What is told is the text of the longest prefix that begins the digits, of the language's own
/// table or of English's; of English's only where the language doesn't stand alone. The empty text
/// tells nothing.
pub fn told_is_of_a_table()
    ensures { (locale : List ℕ) (own english : Option (List Entry)) (digits text : List ℕ) →
        IsTold locale own english digits text → 0 < length text →
        IsTextIn own digits (Some text) ⊎
        ((is_alone locale ≡ false) × IsTextIn english digits (Some text)) }
{}
