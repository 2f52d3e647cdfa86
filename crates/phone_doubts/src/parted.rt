//! Where a text is parted: at the first place where a word stands in it. Texts are bytes here.
ghost use Rattle.std.specs.Prelude.{◌≡◌, None, Some, MatchOption};
ghost use Rattle.std.specs.List.{list_all};
ghost use Rattle.phone_chars.specs.Characters.{is_digit};
ghost use Rattle.phone_doubts.specs.Spreadsheets.{are_digits};
ghost use Rattle.phone_library_text.specs.Places.{parted};

/// What stands before the first place of a word in a text, and what follows the word there; none
/// where the word stands nowhere in it.
pub(crate) fn split_at_word<'a>(text: &'a [u8], word: &[u8]) -> Option<(&'a [u8], &'a [u8])>
    ensures { MatchOption result (parted word.now text.now ≡ None)
        (λ p. parted word.now text.now ≡ Some (p.0.now, p.1.now)) }
{
    for at in 0..text.len() {
        let rest = &text[at..];
        if rest.starts_with(word) {
            return Some((&text[..at], &rest[word.len()..]));
        }
    }
    None
}

/// Whether a text is digits alone, one at least.
pub(crate) fn are_digits(text: &[u8]) -> bool
    ensures { result ≡ are_digits text.now }
{
    !text.is_empty() && has_only_digits(text)
}

/// Whether each byte of a text is a digit.
pub(crate) fn has_only_digits(text: &[u8]) -> bool
    ensures { result ≡ list_all is_digit text.now }
{
    text.iter().all(|byte| byte.is_ascii_digit())
}
