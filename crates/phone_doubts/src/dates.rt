//! Dates.
ghost use Rattle.std.specs.Prelude.{◌≡◌, ◌&&◌, ◌||◌, codes, nat_eq, nat_le};
ghost use Rattle.std.specs.List.{starts_with};
ghost use Rattle.phone_doubts.specs.Spreadsheets.{are_day_month_year, counts_to, is_date};
ghost use Rattle.phone_doubts.specs.Spreadsheets.{is_date_by, is_year};

use crate::parted::{has_only_digits, split_at_word};

/// Whether a text is a date, as `3.10.1984`, `1984-10-03` or `3/10/1984`.
pub(crate) fn is_date(text: &[u8]) -> bool
    ensures { result ≡ is_date text.now }
{
    is_date_by(text, b".") || is_date_by(text, b"-") || is_date_by(text, b"/")
}

/// Whether a text is three groups that this separator parts, which are day, month and year.
fn is_date_by(text: &[u8], separator: &[u8]) -> bool
    ensures { result ≡ is_date_by separator.now text.now }
{
    let Some((first, rest)) = split_at_word(text, separator) else {
        return false;
    };
    match split_at_word(rest, separator) {
        Some((second, third)) => are_day_month_year(first, second, third),
        None => false,
    }
}

/// Whether three groups are day, month and year, in one of the orders in which they are written.
fn are_day_month_year(a: &[u8], b: &[u8], c: &[u8]) -> bool
    ensures { result ≡ are_day_month_year a.now b.now c.now }
{
    (counts_to(a, 31) && counts_to(b, 12) && is_year(c))
        || (counts_to(a, 12) && counts_to(b, 31) && is_year(c))
        || (is_year(a) && counts_to(b, 12) && counts_to(c, 31))
}

/// Whether a text is a number of one digit or two, from 1 to the most.
fn counts_to(text: &[u8], most: u8) -> bool
    ensures { result ≡ counts_to most text.now }
{
    match text {
        [one] => one.is_ascii_digit() && is_within(*one - b'0', most),
        [ten, one] => {
            ten.is_ascii_digit()
                && one.is_ascii_digit()
                && is_within((*ten - b'0') * 10 + (*one - b'0'), most)
        }
        _ => false,
    }
}

/// Whether a number is from 1 to the most.
fn is_within(number: u8, most: u8) -> bool
    ensures { result ≡ (nat_le 1 number && nat_le number most) }
{
    1 <= number && number <= most
}

/// Whether a text is a year: four digits, the first two 19 or 20.
fn is_year(text: &[u8]) -> bool
    ensures { result ≡ is_year text.now }
{
    text.len() == 4 && has_only_digits(text) && begins_century(text)
}

/// Whether the first two digits of a text are 19 or 20.
fn begins_century(text: &[u8]) -> bool
    ensures { result ≡ (starts_with nat_eq text.now (codes "19") ||
        starts_with nat_eq text.now (codes "20")) }
{
    text.starts_with(b"19") || text.starts_with(b"20")
}
