//! How a text may begin: tests of a text, each made of the test of what follows.
ghost use Rattle.std.specs.Prelude.{◌≡◌, ℕ, Bool, List, chars};
ghost use Rattle.phone_chars.specs.Cuts.{IsEnd};
ghost use Rattle.phone_matches_text.specs.Shapes.{after_few, from_first, somewhere, within};
ghost use Rattle.phone_matches_text.specs.Sets.{is_in};

use crate::cuts::{has_some, peel};
use crate::sets::Set;
use phone_chars::cuts::{CharSet, after_run};

/// A test of a text, by how it begins.
pub trait Shape {
    ghost passes: { Self → List ℕ → Bool };

    /// Whether the text passes the test.
    fn passes(&self, text: &str) -> bool
        ensures { result ≡ passes self.now (chars text.now) };
}

/// Whatever the text is.
#[derive(Clone, Copy)]
pub struct Always;

impl Shape for Always {
    ghost use Rattle.phone_matches_text.specs.Shapes.{always};

    ghost passes = { λ _. always };

    fn passes(&self, _text: &str) -> bool {
        true
    }
}

/// The text ends here.
#[derive(Clone, Copy)]
pub struct AtEnd;

impl Shape for AtEnd {
    ghost use Rattle.phone_matches_text.specs.Shapes.{at_end};

    ghost passes = { λ _. at_end };

    fn passes(&self, text: &str) -> bool {
        !has_some(text)
    }
}

/// A character of the set, and behind it what the other asks.
#[derive(Clone, Copy)]
pub struct One<T> {
    pub set: Set,
    pub then: T,
}

impl<T: Shape> Shape for One<T> {
    ghost use Rattle.phone_matches_text.specs.Sets.{is_in};
    ghost use Rattle.phone_matches_text.specs.Shapes.{one};

    ghost passes = { λ s. one (is_in s.set) (T.passes s.then) };

    fn passes(&self, text: &str) -> bool {
        match peel(text) {
            Some((c, rest)) => self.set.has(c) && self.then.passes(rest),
            None => false,
        }
    }
}

/// One test or the other is passed.
#[derive(Clone, Copy)]
pub struct Either<A, B> {
    pub this: A,
    pub other: B,
}

impl<A: Shape, B: Shape> Shape for Either<A, B> {
    ghost use Rattle.phone_matches_text.specs.Shapes.{either};

    ghost passes = { λ s. either (A.passes s.this) (B.passes s.other) };

    fn passes(&self, text: &str) -> bool {
        self.this.passes(text) || self.other.passes(text)
    }
}

/// Perhaps a character of the set, and behind it what the other asks.
#[derive(Clone, Copy)]
pub struct Perhaps<T> {
    pub set: Set,
    pub then: T,
}

impl<T: Shape + Copy> Shape for Perhaps<T> {
    ghost use Rattle.phone_matches_text.specs.Sets.{is_in};
    ghost use Rattle.phone_matches_text.specs.Shapes.{perhaps};

    ghost passes = { λ s. perhaps (is_in s.set) (T.passes s.then) };

    fn passes(&self, text: &str) -> bool {
        One {
            set: self.set,
            then: self.then,
        }
        .passes(text)
            || self.then.passes(text)
    }
}

/// Characters of the set, or none, and behind them what the other asks.
#[derive(Clone, Copy)]
pub struct Any<T> {
    pub set: Set,
    pub then: T,
}

impl<T: Shape> Shape for Any<T> {
    ghost use Rattle.phone_matches_text.specs.Sets.{is_in};
    ghost use Rattle.phone_matches_text.specs.Shapes.{any};

    ghost passes = { λ s. any (is_in s.set) (T.passes s.then) };

    fn passes(&self, text: &str) -> bool {
        self.then.passes(after_run(text, &self.set))
    }
}

/// Characters of the set, at least one, and behind them what the other asks.
#[derive(Clone, Copy)]
pub struct AtLeastOne<T> {
    pub set: Set,
    pub then: T,
}

impl<T: Shape> Shape for AtLeastOne<T> {
    ghost use Rattle.phone_matches_text.specs.Sets.{is_in};
    ghost use Rattle.phone_matches_text.specs.Shapes.{some};

    ghost passes = { λ s. some (is_in s.set) (T.passes s.then) };

    fn passes(&self, text: &str) -> bool {
        match peel(text) {
            Some((c, rest)) => { self.set.has(c) && self.then.passes(after_run(rest, &self.set)) }
            None => false,
        }
    }
}

/// At most so many characters of the set, and behind them what the other asks.
#[derive(Clone, Copy)]
pub struct Few<T> {
    pub set: Set,
    pub most: usize,
    pub then: T,
}

impl<T: Shape> Shape for Few<T> {
    ghost use Rattle.phone_matches_text.specs.Sets.{is_in};
    ghost use Rattle.phone_matches_text.specs.Shapes.{few};

    ghost passes = { λ s. few (is_in s.set) s.most (T.passes s.then) };

    fn passes(&self, text: &str) -> bool {
        self.then.passes(after_few(text, self.set, self.most))
    }
}

/// At most so many characters of the set, no more than it takes, and behind them what the other
/// asks.
#[derive(Clone, Copy)]
pub struct Within<T> {
    pub set: Set,
    pub most: usize,
    pub then: T,
}

impl<T: Shape> Shape for Within<T> {
    ghost use Rattle.phone_matches_text.specs.Sets.{is_in};
    ghost use Rattle.phone_matches_text.specs.Shapes.{within};

    ghost passes = { λ s. within (is_in s.set) s.most (T.passes s.then) };

    fn passes(&self, text: &str) -> bool {
        passes_within(text, self.set, self.most, &self.then)
    }
}

/// Whether behind at most so many characters of the set the test is passed.
fn passes_within<T: Shape>(text: &str, set: Set, most: usize, then: &T) -> bool
    ensures { result ≡ within (is_in set) most (T.passes then.now) (chars text.now) }
{
    let mut rest = text;
    let mut left = most;
    while left > 0 {
        if then.passes(rest) {
            return true;
        }
        let Some((c, after)) = peel(rest) else {
            return false;
        };
        if !set.has(c) {
            return false;
        }
        rest = after;
        left -= 1;
    }
    then.passes(rest)
}

/// What follows at most so many characters of the set, as many as stand there.
pub fn after_few(text: &str, set: Set, most: usize) -> &str
    ensures end { IsEnd text.now result.now }
    ensures rest { chars result.now ≡ after_few (is_in set) most (chars text.now) }
{
    let mut rest = text;
    let mut left = most;
    while left > 0 {
        let Some((c, after)) = peel(rest) else {
            return rest;
        };
        if !set.has(c) {
            return rest;
        }
        rest = after;
        left -= 1;
    }
    rest
}

/// Whether the test is passed somewhere in the text.
pub fn somewhere<T: Shape>(text: &str, shape: &T) -> bool
    ensures { result ≡ somewhere (T.passes shape.now) (chars text.now) }
{
    let mut rest = text;
    while let Some((_, after)) = peel(rest) {
        if shape.passes(rest) {
            return true;
        }
        rest = after;
    }
    shape.passes(rest)
}

/// The text from the first place on where the test is passed; nothing where it is nowhere.
pub fn from_first<'a, T: Shape>(text: &'a str, shape: &T) -> &'a str
    ensures end { IsEnd text.now result.now }
    ensures first { chars result.now ≡ from_first (T.passes shape.now) (chars text.now) }
{
    let mut rest = text;
    while let Some((_, after)) = peel(rest) {
        if shape.passes(rest) {
            return rest;
        }
        rest = after;
    }
    rest
}
