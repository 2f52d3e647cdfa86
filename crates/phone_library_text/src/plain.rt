//! Numbers of ASCII digits alone, with a plus sign before them or without: most that are kept are
//! written so, and they need no search.
ghost use Rattle.std.specs.Prelude.{◌≡◌, ◌≤◌, ◌++◌, ℕ, IfSome, IsNone, List, None, Ok, chars};
ghost use Rattle.std.specs.Prelude.{codes, length, true};
ghost use Rattle.std.specs.List.{list_all};
ghost use Rattle.phone_chars.specs.Characters.{is_digit};
ghost use Rattle.phone_library_text.specs.Written.{IsWritten, most_characters};

/// The fewest digits that are a number whatever they are.
const FEWEST_DIGITS: usize = 3;

/// A number of ASCII digits alone.
#[derive(Clone, Copy)]
pub(crate) struct PlainNumber<'a> {
    /// Whether a plus sign stands before the digits.
    pub(crate) has_plus: bool,
    /// The digits.
    pub(crate) digits: &'a str,
}

/// The text as a number of ASCII digits alone, of three at least. None where it is no such.
pub(crate) fn plain_number(text: &str) -> Option<PlainNumber<'_>>
    ensures plain { IfSome result (λ p. length (chars text.now) ≤ most_characters →
        IsWritten (chars text.now) (Ok (record {
          has_plus = p.has_plus;
          digits = p.digits.now;
          extension = None;
        }))) }
    ensures other { IsNone result → (d : List ℕ) → list_all is_digit d ≡ true → 3 ≤ length d →
        ¬ (text.now ≡ d) × ¬ (text.now ≡ codes "+" ++ d) }
{
    match behind_plus(text) {
        Some(digits) => of_digits(true, digits),
        None => of_digits(false, text),
    }
}

/// What stands behind the plus sign of a text that begins with one.
fn behind_plus(text: &str) -> Option<&str>
    ensures found { IfSome result (λ rest. text.now ≡ codes "+" ++ rest.now) }
    ensures none { IsNone result → (rest : List ℕ) → ¬ (text.now ≡ codes "+" ++ rest) }
{
    text.strip_prefix("+")
}

/// The number of these bytes, where they are digits, and enough of them.
fn of_digits(has_plus: bool, digits: &str) -> Option<PlainNumber<'_>>
    ensures found { IfSome result (λ p. (p.has_plus ≡ has_plus) × (p.digits.now ≡ digits.now) ×
        (list_all is_digit digits.now ≡ true) × (3 ≤ length digits.now)) }
    ensures none { IsNone result →
        ¬ ((list_all is_digit digits.now ≡ true) × (3 ≤ length digits.now)) }
{
    if digits.len() >= FEWEST_DIGITS && are_digits(digits.as_bytes()) {
        Some(PlainNumber { has_plus, digits })
    } else {
        None
    }
}

/// Whether each of these bytes is an ASCII digit.
fn are_digits(bytes: &[u8]) -> bool
    ensures { result ≡ list_all is_digit bytes.now }
{
    bytes.iter().all(|byte| byte.is_ascii_digit())
}
