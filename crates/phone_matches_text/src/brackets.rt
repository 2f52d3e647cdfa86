//! How brackets may stand in a number, and page numbers, which are none.
ghost use Rattle.std.specs.Prelude.{◌≡◌, chars};
ghost use Rattle.phone_matches_text.specs.Brackets.{has_good_brackets, has_pages};

use crate::sets::Set;
use crate::shapes::{Always, Any, AtEnd, AtLeastOne, Few, One, Perhaps, Shape, somewhere};

/// Perhaps a part in brackets, and behind it what the other asks.
#[derive(Clone, Copy)]
struct PerhapsEnclosed<T> {
    then: T,
}

impl<T: Shape + Copy> Shape for PerhapsEnclosed<T> {
    ghost use Rattle.phone_matches_text.specs.Brackets.{perhaps_enclosed};

    ghost passes = { λ s. perhaps_enclosed (T.passes s.then) };

    fn passes(&self, text: &str) -> bool {
        let closed = One {
            set: Set::Closing,
            then: self.then,
        };
        let enclosed = One {
            set: Set::Opening,
            then: AtLeastOne {
                set: Set::Unbracketed,
                then: closed,
            },
        };
        enclosed.passes(text) || self.then.passes(text)
    }
}

/// At least one character that is no bracket, at most three parts in brackets, and then no bracket.
#[derive(Clone, Copy)]
struct Enclosing;

impl Shape for Enclosing {
    ghost use Rattle.phone_matches_text.specs.Brackets.{is_enclosing};

    ghost passes = { λ _. is_enclosing };

    fn passes(&self, text: &str) -> bool {
        let end = Any {
            set: Set::Unbracketed,
            then: AtEnd,
        };
        let three = PerhapsEnclosed {
            then: PerhapsEnclosed {
                then: PerhapsEnclosed { then: end },
            },
        };
        AtLeastOne {
            set: Set::Unbracketed,
            then: three,
        }
        .passes(text)
    }
}

/// The same, perhaps with characters that are no brackets and a closing one before it.
#[derive(Clone, Copy)]
struct Closed;

impl Shape for Closed {
    ghost use Rattle.phone_matches_text.specs.Brackets.{is_closed};

    ghost passes = { λ _. is_closed };

    fn passes(&self, text: &str) -> bool {
        let closed = One {
            set: Set::Closing,
            then: Enclosing,
        };
        AtLeastOne {
            set: Set::Unbracketed,
            then: closed,
        }
        .passes(text)
            || Enclosing.passes(text)
    }
}

/// Whether brackets stand in the text as they may in a number: perhaps one opens it; perhaps one
/// closes a first part; and behind a part without brackets at most three are enclosed, one right
/// behind the other. No kind must fit another. The empty text isn't such a one.
pub fn has_good_brackets(text: &str) -> bool
    ensures { result ≡ has_good_brackets (chars text.now) }
{
    Perhaps {
        set: Set::Opening,
        then: Closed,
    }
    .passes(text)
}

/// Whether page numbers of a volume stand somewhere in the text, as in `23-25(1)`.
pub fn has_pages(text: &str) -> bool
    ensures { result ≡ has_pages (chars text.now) }
{
    let volume = One {
        set: Set::Round,
        then: One {
            set: Set::Digit,
            then: Always,
        },
    };
    let last = One {
        set: Set::Digit,
        then: Few {
            set: Set::Digit,
            most: 4,
            then: Few {
                set: Set::Blank,
                most: 4,
                then: volume,
            },
        },
    };
    let pages = One {
        set: Set::Digit,
        then: AtLeastOne {
            set: Set::Hyphen,
            then: last,
        },
    };
    somewhere(text, &pages)
}
