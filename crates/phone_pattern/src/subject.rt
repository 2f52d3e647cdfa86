//! A text of which patterns are asked, with what is known of it.
ghost use Rattle.std.specs.Prelude.{◌≡◌, IfSome};
ghost use Rattle.phone_automaton.specs.Digits.{AreDigits};

use phone_automaton::are_digits;
use std::marker::Model;

/// A text that is searched, and whether it is of ASCII's digits alone: that is looked at once, so
/// that many patterns may be asked of the text without a look at its bytes. Contracts see the text.
#[derive(Drop)]
pub struct Subject<'a> {
    text: &'a str,
    is_of_digits: bool,
}

impl<'a> Model for Subject<'a> {
    ghost use Rattle.std.specs.Prelude.{ℕ, List, IsTrue};
    ghost use Rattle.phone_automaton.specs.Digits.{AreDigits};

    ghost Value = { List ℕ };

    ghost view = { λ s. s.text.now };

    ghost invariant = { λ s. IsTrue s.is_of_digits → AreDigits s.text.now };
}

impl<'a> Subject<'a> {
    /// Of a text, which is gone over to see whether it is of digits.
    #[inline]
    pub fn of(text: &'a str) -> Subject<'a>
        ensures { result ≡ text.now }
    {
        Subject {
            text,
            is_of_digits: are_digits(text.as_bytes()),
        }
    }

    /// Of a text that is known to be of ASCII's digits.
    #[inline]
    pub fn of_digits(text: &'a str) -> Subject<'a>
        requires { AreDigits text.now }
        ensures { result ≡ text.now }
    {
        Subject {
            text,
            is_of_digits: true,
        }
    }

    /// The text.
    #[inline]
    pub fn as_str(&self) -> &'a str
        ensures { result.now ≡ self.now }
    {
        self.text
    }

    /// The text, if it is of digits alone.
    #[inline]
    pub(crate) fn as_digits(&self) -> Option<&'a str>
        ensures text { IfSome result (λ digits. digits.now ≡ self.now) }
        ensures digits { IfSome result (λ digits. AreDigits digits.now) }
    {
        if self.is_of_digits {
            Some(self.text)
        } else {
            None
        }
    }
}
