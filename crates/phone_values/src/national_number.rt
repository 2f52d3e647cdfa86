//! A national number: its value, and how many zeros stand before it.
ghost use Rattle.std.specs.Prelude.{◌≡◌, ℕ, ◌+◌, ◌*◌, ◌^◌, ◌<◌, ◌≤◌, ◌↔◌, length, drop, replicate};
ghost use Rattle.std.specs.Prelude.{MatchResult, IfOk, Ok, codes};
ghost use Rattle.std.specs.Char.{is_ascii_digit};
ghost use Rattle.phone_values.specs.Numbers.{National, IsHeld, leading_zeros, text_of, national_in};

use crate::ParseError;
use crate::equality::SameValue;
use serde::{Deserialize, Serialize};
use std::fmt;
use std::marker::Model;
use std::str::FromStr;

/// A national number as one word: the zeros in its upper 8 bits, the value in its lower 56.
/// Contracts see value and zeros.
#[derive(Clone, Copy, PartialEq, Eq, Hash, Debug, Serialize, Deserialize)]
pub struct NationalNumber {
    #[serde(rename = "value")]
    word: u64,
}

impl Model for NationalNumber {
    ghost use Rattle.phone_values.specs.Numbers.{National, unpacked, packed};

    ghost Value = { National };

    ghost view = { λ n. unpacked n.word };

    ghost inverse = { λ n. record { word = packed n } };

    ghost use Rattle.std.specs.Prelude.{◌≡◌};
    ghost use Rattle.std.proofs.Common.{ap, arith};
    ghost use Rattle.phone_values.specs.declared.national_number.NationalNumber.TheInside.{Inside};

    ghost inverse_ok = { λ a h. ap (λ w. let i : Inside = record { word = w } in i)
        (let e : packed (unpacked a.word) ≡ a.word = Prim.omega arith in e) };
}

impl NationalNumber {
    /// The number of this value after this many zeros; `TooLong` exactly where the value needs more
    /// than 56 bits.
    pub fn new(value: u64, zeros: u8) -> Result<NationalNumber, ParseError>
        ensures { MatchResult result (λ n. (value < 2 ^ 56) ×
            (n ≡ record { zeros = zeros; value = value }))
            (λ e. (2 ^ 56 ≤ value) × (e ≡ ParseError.TooLong)) }
    {
        if value >= 1 << 56 {
            return Err(ParseError::TooLong);
        }
        Ok(NationalNumber {
            word: (u64::from(zeros) << 56) + value,
        })
    }

    /// The number without its leading zeros. Every number has at most 255 zeros and a value below
    /// 2^56.
    pub fn value(&self) -> u64
        ensures value { result ≡ self.now.value }
        ensures held { IsHeld self.now }
    {
        self.keeps_bounds();
        self.word % (1 << 56)
    }

    /// How many zeros stand before it.
    pub fn zeros(&self) -> u8
        ensures { result ≡ self.now.zeros }
    {
        (self.word >> 56) as u8
    }

    /// A law, which does nothing: every number has at most 255 zeros and a value below 2^56.
    fn keeps_bounds(&self)
        ensures { IsHeld self.now }
    {
        let _word = self.word;
    }
}

impl From<NationalNumber> for u64 {
    ghost use Rattle.std.specs.Prelude.{◌≡◌};
    ghost use Rattle.phone_values.specs.Numbers.{packed};

    ghost from_gives = { λ n word. word ≡ packed n };

    /// The word that holds the number: `zeros * 2^56 + value`.
    fn from(number: NationalNumber) -> u64 {
        number.word
    }
}

impl fmt::Display for NationalNumber {
    ghost use Rattle.std.specs.Prelude.{Some};
    ghost use Rattle.phone_values.specs.Numbers.{text_of};

    ghost output = { λ n. Some (text_of n) };

    fn fmt<W: fmt::Write>(&self, f: &mut fmt::Formatter<W>) -> fmt::Result {
        for _i in 0..self.zeros() {
            f.write_str("0")?;
        }
        let value = self.value();
        write!(f, "{value}")
    }
}

impl SameValue for NationalNumber {
    fn is_same(&self, other: &NationalNumber) -> bool {
        self.keeps_bounds();
        other.keeps_bounds();
        self == other
    }
}

/// The zeros at the front of a text, and what follows them.
fn split_zeros(text: &str) -> (usize, &str)
    ensures count { result.0 ≡ leading_zeros text.now }
    ensures rest { result.1.now ≡ drop (leading_zeros text.now) text.now }
{
    let rest = text.trim_start_matches('0');
    (text.len() - rest.len(), rest)
}

impl FromStr for NationalNumber {
    ghost use Rattle.std.specs.Prelude.{◌≡◌};
    ghost use Rattle.phone_values.specs.Numbers.{national_in};

    type Err = ParseError;

    ghost from_str_gives = { λ text r. r ≡ national_in text };

    /// All zeros at the front are counted; what follows is read as Rust reads a `u64`, so that one
    /// plus sign and zeros after it are accepted. `MalformedInteger` where that is no number below
    /// 2^64 (also the empty text), else `TooLong` past 255 zeros or 56 bits of value.
    fn from_str(text: &str) -> Result<NationalNumber, ParseError> {
        let (zeros, rest) = split_zeros(text);
        let Ok(value) = rest.parse::<u64>() else {
            return Err(ParseError::MalformedInteger);
        };
        match u8::try_from(zeros) {
            Ok(zeros) => NationalNumber::new(value, zeros),
            Err(_) => Err(ParseError::TooLong),
        }
    }
}
