//! How like two numbers are: our own answer.
ghost use Rattle.std.specs.Prelude.{◌≡◌, if◌then◌else◌, IfOk, nat_eq};
ghost use Rattle.std.specs.List.{ends_with};
ghost use Rattle.phone_further.specs.Matches.{is_long_end, match_numbers, share_end};

use phone_questions::{NumberMatch, match_of};
use phonenumber::PhoneNumber;
use std::alloc::{AllocError, Global};

/// How many digits at least tell of a number by its end.
const FEWEST_DIGITS: usize = 7;

/// How like two numbers are: as `match_of` of `phone_questions`, but the national number of one,
/// its leading zeros included, is an end of the other's only from seven digits on; with fewer there
/// is no match. So `64 0` isn't like each number that ends with 0. Refused only for memory.
pub fn match_numbers(
    alloc: Global,
    a: &PhoneNumber,
    b: &PhoneNumber,
) -> Result<NumberMatch, AllocError>
    ensures { IfOk result (λ m. m ≡ match_numbers a.now b.now) }
{
    let found = match_of(alloc, a, b)?;
    match found {
        NumberMatch::ShortNsnMatch => match_by_end(alloc, a, b),
        _ => Ok(found),
    }
}

/// How like two numbers are of which an end may be one's. Refused only for memory.
fn match_by_end(alloc: Global, a: &PhoneNumber, b: &PhoneNumber) -> Result<NumberMatch, AllocError>
    ensures { IfOk result (λ m. m ≡
        (if share_end a.now b.now then NumberMatch.ShortNsnMatch else NumberMatch.NoMatch)) }
{
    if share_end(alloc, a, b)? {
        Ok(NumberMatch::ShortNsnMatch)
    } else {
        Ok(NumberMatch::NoMatch)
    }
}

/// Whether seven digits at least of one number are an end of the other's. Refused only for memory.
fn share_end(alloc: Global, a: &PhoneNumber, b: &PhoneNumber) -> Result<bool, AllocError>
    ensures { IfOk result (λ shared. shared ≡ share_end a.now b.now) }
{
    let x = a.national().to_string(alloc)?;
    let y = b.national().to_string(alloc)?;
    Ok(is_long_end(x.as_str(), y.as_str()) || is_long_end(y.as_str(), x.as_str()))
}

/// Whether seven digits at least are an end of these.
fn is_long_end(digits: &str, end: &str) -> bool
    ensures { result ≡ is_long_end digits.now end.now }
{
    end.len() >= FEWEST_DIGITS && stands_at_end(end, digits)
}

/// Whether one text is an end of another.
fn stands_at_end(end: &str, text: &str) -> bool
    ensures { result ≡ ends_with nat_eq text.now end.now }
{
    text.ends_with(end)
}
