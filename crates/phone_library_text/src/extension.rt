//! The extension at the end of a text.
ghost use Rattle.std.specs.Prelude.{◌≡◌, ℕ, List, ◌++◌, IfSome, MatchOption, chars, length};
ghost use Rattle.phone_parts.specs.Parts.{IsSlice};
ghost use Rattle.phone_library_text.specs.Extensions.{HasLongestExtension, HasNoExtension};

use crate::announcement::before_announcement;
use crate::ends::{after, split_sign};
use crate::labels::is_nothing;
use phone_parts::before_run;
use phone_parts::sets::Digits;

/// How many characters the text has.
fn count_chars(text: &str) -> usize
    ensures { result ≡ length (chars text.now) }
{
    text.chars().count()
}

/// What stands before the longest end of a text that is an extension, and the digits of that
/// extension; none where no end is one. Its digits are those at the text's end, or before a number
/// sign there. The time is linear in what stands behind the last character before them that is a
/// digit.
pub(crate) fn find_extension(text: &str) -> Option<(&str, &str)>
    ensures read { MatchOption result (HasNoExtension (chars text.now))
        (λ p. HasLongestExtension (chars text.now) (chars p.0.now) (chars p.1.now)) }
    ensures front { IfSome result (λ p. (v : List ℕ) × (text.now ≡ p.0.now ++ v)) }
    ensures slice { IfSome result (λ p. IsSlice text.now p.1.now) }
{
    let (signless, signed) = split_sign(text);
    let head = before_run(signless, &Digits);
    let digits = after(signless, head);
    if is_nothing(digits) {
        return None;
    }
    let front = before_announcement(head, count_chars(digits), signed)?;
    Some((front, digits))
}
