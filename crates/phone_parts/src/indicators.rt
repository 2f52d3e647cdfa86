//! The words and signs that announce an extension, found by their first character: `xt` with or
//! without `e` before it, `ensio` (its `o` with or without an accent) and `n` behind it; wide `xt`
//! with or without `e` and `n`; a sign; `int`, also in wide letters, and `anexo`.
ghost use Rattle.std.specs.Prelude.{◌≡◌, ℕ, List, chars, map};
ghost use Rattle.std.specs.Borrow.{Bor};
ghost use Rattle.std.specs.List.{filter};
ghost use Rattle.phone_chars.specs.Characters.{same_fold};
ghost use Rattle.phone_parts.specs.Suffixes.{indicators};
ghost use Rattle.phone_parts.specs.Texts.{begins};

use unicode::case::simple_fold;

const FROM_X: [&str; 9] = [
    "xt",
    "xtn",
    "xtensio",
    "xtension",
    "xtensio\u{301}",
    "xtensio\u{301}n",
    "xtensi\u{F3}",
    "xtensi\u{F3}n",
    "x",
];

const FROM_E: [&str; 8] = [
    "ext",
    "extn",
    "extensio",
    "extension",
    "extensio\u{301}",
    "extensio\u{301}n",
    "extensi\u{F3}",
    "extensi\u{F3}n",
];

const FROM_I: [&str; 1] = ["int"];

const FROM_A: [&str; 1] = ["anexo"];

const FROM_WIDE_X: [&str; 3] = ["\u{FF58}\u{FF54}", "\u{FF58}\u{FF54}\u{FF4E}", "\u{FF58}"];

const FROM_WIDE_E: [&str; 2] = [
    "\u{FF45}\u{FF58}\u{FF54}",
    "\u{FF45}\u{FF58}\u{FF54}\u{FF4E}",
];

const FROM_WIDE_I: [&str; 1] = ["\u{FF49}\u{FF4E}\u{FF54}"];

const COMMA: [&str; 1] = [","];

const SEMICOLON: [&str; 1] = [";"];

const NUMBER_SIGN: [&str; 1] = ["#"];

const WIDE_NUMBER_SIGN: [&str; 1] = ["\u{FF03}"];

const TILDE: [&str; 1] = ["~"];

const WIDE_TILDE: [&str; 1] = ["\u{FF5E}"];

const NONE: [&str; 0] = [];

/// The indicators that begin with this character, or with one that simple case folding makes the
/// same.
pub(crate) fn indicators_from(c: char) -> &'static [&'static str]
    ensures { map (λ (w : Bor (List ℕ)). chars w.now) result.now ≡
        filter (λ w. begins (same_fold c) w) indicators }
{
    match simple_fold(c) {
        'x' => &FROM_X,
        'e' => &FROM_E,
        'i' => &FROM_I,
        'a' => &FROM_A,
        '\u{FF58}' => &FROM_WIDE_X,
        '\u{FF45}' => &FROM_WIDE_E,
        '\u{FF49}' => &FROM_WIDE_I,
        ',' => &COMMA,
        ';' => &SEMICOLON,
        '#' => &NUMBER_SIGN,
        '\u{FF03}' => &WIDE_NUMBER_SIGN,
        '~' => &TILDE,
        '\u{FF5E}' => &WIDE_TILDE,
        _ => &NONE,
    }
}
