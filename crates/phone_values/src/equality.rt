//! Equality of the values is equality of all that they hold: `==` of each type, with a contract
//! that says so. Those that have a hash have equal ones where they are equal.
ghost use Rattle.std.specs.Prelude.{◌≡◌, ◌↔◌, IsTrue, fold};
ghost use Rattle.std.specs.Hash.DefaultHasher as sip;

use crate::country::{Code, Id, Source, UnknownId};
use crate::{Carrier, Extension, Mode, NationalNumber, ParseError, Type, Validation};
use std::hash::{DefaultHasher, Hash, Hasher};

/// The hash of a value by std's hasher.
pub fn hash_of<T: Hash>(x: &T) -> u64
    ensures { result ≡ sip.finish (fold sip.write sip.initial (T.hash_input x.now)) }
{
    let mut state = DefaultHasher::new();
    x.hash(&mut state);
    state.finish()
}

/// The hashes of two values: each its own, and equal where the values are.
pub fn hashes<T: Hash>(a: &T, b: &T) -> (u64, u64)
    ensures first { result.0 ≡ sip.finish (fold sip.write sip.initial (T.hash_input a.now)) }
    ensures second { result.1 ≡ sip.finish (fold sip.write sip.initial (T.hash_input b.now)) }
    ensures alike { a.now ≡ b.now → result.0 ≡ result.1 }
{
    (hash_of(a), hash_of(b))
}

/// A type whose `==` is equality of all that a value holds.
pub trait SameValue: Sized {
    /// Whether two values are equal by `==`: exactly where all that they hold is equal.
    fn is_same(&self, other: &Self) -> bool
        ensures { IsTrue result ↔ (self.now ≡ other.now) };
}

impl SameValue for Code {
    fn is_same(&self, other: &Code) -> bool {
        self == other
    }
}

impl SameValue for Source {
    fn is_same(&self, other: &Source) -> bool {
        self == other
    }
}

impl SameValue for Id {
    fn is_same(&self, other: &Id) -> bool {
        self == other
    }
}

impl SameValue for Type {
    fn is_same(&self, other: &Type) -> bool {
        self == other
    }
}

impl SameValue for Mode {
    fn is_same(&self, other: &Mode) -> bool {
        self == other
    }
}

impl SameValue for Validation {
    fn is_same(&self, other: &Validation) -> bool {
        self == other
    }
}

impl SameValue for Extension {
    fn is_same(&self, other: &Extension) -> bool {
        self == other
    }
}

impl SameValue for Carrier {
    fn is_same(&self, other: &Carrier) -> bool {
        self == other
    }
}

impl SameValue for ParseError {
    fn is_same(&self, other: &ParseError) -> bool {
        self == other
    }
}

impl SameValue for UnknownId {
    fn is_same(&self, other: &UnknownId) -> bool {
        self == other
    }
}
