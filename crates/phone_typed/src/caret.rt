//! Where the caret stands in what a field shows.
ghost use Rattle.std.specs.Prelude.{◌≡◌, chars, length, take};
ghost use Rattle.phone_typed.specs.Carets as caret_rules;

use crate::field::Keyed;
use phone_chars::cuts::split_first;

/// The first n bytes; all of them where there are fewer.
fn front(keys: &[u8], n: usize) -> &[u8]
    ensures { result.now ≡ take n keys.now }
{
    match keys.get(..n) {
        Some(front) => front,
        None => keys,
    }
}

/// After how many characters the last of keys stands, each sought behind the one before it; all of
/// them where one isn't found.
fn place_of(keys: &[u8], shown: &str) -> usize
    ensures { result ≡ caret_rules.place_of keys.now (chars shown.now) }
{
    let mut left = keys;
    let mut rest = shown;
    let mut place = 0;
    while let Some((key, others)) = left.split_first() {
        let Some((c, after)) = split_first(rest) else {
            return place;
        };
        if c == char::from(*key) {
            left = others;
        }
        rest = after;
        place += 1;
    }
    place
}

/// How many characters a text has.
fn count_chars(text: &str) -> usize
    ensures { result ≡ length (chars text.now) }
{
    text.chars().count()
}

impl<'d> Keyed<'d> {
    /// After how many characters of what is shown the n-th character stands that was typed, counted
    /// from 1: where the caret stands after it. 0 for none, and after the last that was typed for
    /// one that wasn't.
    pub fn caret(&self, n: usize) -> usize
        ensures { result ≡ caret_rules.caret n self.now }
    {
        if self.laid.fits() {
            place_of(front(self.keys.as_bytes(), n), self.shown.as_str())
        } else {
            n.min(count_chars(self.text.as_str()))
        }
    }
}
