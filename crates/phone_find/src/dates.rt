//! Dates, which are no numbers.
ghost use Rattle.std.specs.Prelude.{◌≡◌, chars};
ghost use Rattle.std.specs.List.{list_any};
ghost use Rattle.phone_find.specs.Shapes.{begins_date, has_date, has_later_date};
ghost use Rattle.phone_find.specs.Told.{all_told};
ghost use Rattle.phone_find.specs.Walks.{fits};

use crate::cuts::peel;
use crate::rules::dates;
use crate::signs::is_free;
use crate::walks::fits;

/// Whether one of the texts of signs fits the front of the text.
fn begins_one(text: &str, many: &[&str]) -> bool
    ensures { result ≡ list_any (λ d. fits d (chars text.now)) (all_told many.now) }
{
    for signs in many {
        if fits(text, signs) {
            return true;
        }
    }
    false
}

/// Whether a date begins the text.
fn begins_date(text: &str) -> bool
    ensures { result ≡ begins_date (chars text.now) }
{
    begins_one(text, dates())
}

/// Whether a date stands in the text behind a character that is free.
fn has_later_date(text: &str) -> bool
    ensures { result ≡ has_later_date (chars text.now) }
{
    let mut rest = text;
    while let Some((c, after)) = peel(rest) {
        if is_free(c) && begins_date(after) {
            return true;
        }
        rest = after;
    }
    false
}

/// Whether a date stands in the text.
pub(crate) fn has_date(text: &str) -> bool
    ensures { result ≡ has_date (chars text.now) }
{
    begins_date(text) || has_later_date(text)
}
