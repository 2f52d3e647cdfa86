//! Dates and times, which are no numbers.
ghost use Rattle.std.specs.Prelude.{◌≡◌, chars};
ghost use Rattle.phone_matches_text.specs.Dates.{begins_minutes, has_date, is_dated, is_time};

use crate::sets::Set;
use crate::shapes::{Always, AtEnd, AtLeastOne, One, Perhaps, Shape, somewhere};

/// Whether a date stands somewhere in the text: a digit, a slash, perhaps one of `0` to `3`, a
/// digit, a slash, two digits.
fn has_date(text: &str) -> bool
    ensures { result ≡ has_date (chars text.now) }
{
    let year = One {
        set: Set::Digit,
        then: One {
            set: Set::Digit,
            then: Always,
        },
    };
    let month = One {
        set: Set::Digit,
        then: One {
            set: Set::Slash,
            then: year,
        },
    };
    let date = One {
        set: Set::Digit,
        then: One {
            set: Set::Slash,
            then: Perhaps {
                set: Set::UpToThree,
                then: month,
            },
        },
    };
    somewhere(text, &date)
}

/// A date and an hour, and nothing behind them.
struct DateAndHour;

impl Shape for DateAndHour {
    ghost use Rattle.phone_matches_text.specs.Dates.{is_date_and_hour};

    ghost passes = { λ _. is_date_and_hour };

    fn passes(&self, text: &str) -> bool {
        let month = One {
            set: Set::UpToOne,
            then: One {
                set: Set::Digit,
                then: DayAndHour,
            },
        };
        let decade = One {
            set: Set::Digit,
            then: One {
                set: Set::Digit,
                then: Perhaps {
                    set: Set::DateMark,
                    then: month,
                },
            },
        };
        One {
            set: Set::OneOrTwo,
            then: One {
                set: Set::Digit,
                then: decade,
            },
        }
        .passes(text)
    }
}

/// A day and an hour, perhaps behind a hyphen or a slash, and nothing behind them.
#[derive(Clone, Copy)]
struct DayAndHour;

impl Shape for DayAndHour {
    ghost use Rattle.phone_matches_text.specs.Dates.{is_day_and_hour};

    ghost passes = { λ _. is_day_and_hour };

    fn passes(&self, text: &str) -> bool {
        let hour = One {
            set: Set::UpToTwo,
            then: One {
                set: Set::Digit,
                then: AtEnd,
            },
        };
        let day = One {
            set: Set::UpToThree,
            then: One {
                set: Set::Digit,
                then: AtLeastOne {
                    set: Set::Blank,
                    then: hour,
                },
            },
        };
        Perhaps {
            set: Set::DateMark,
            then: day,
        }
        .passes(text)
    }
}

/// Whether the text begins with a colon and a minute's two digits.
fn begins_minutes(text: &str) -> bool
    ensures { result ≡ begins_minutes (chars text.now) }
{
    let minute = One {
        set: Set::UpToFive,
        then: One {
            set: Set::Digit,
            then: Always,
        },
    };
    One {
        set: Set::Colon,
        then: minute,
    }
    .passes(text)
}

/// Whether the text ends in a date and an hour, and minutes follow it.
fn is_time(text: &str, after: &str) -> bool
    ensures { result ≡ is_time (chars text.now) (chars after.now) }
{
    somewhere(text, &DateAndHour) && begins_minutes(after)
}

/// Whether a candidate is a date, as `3/10/1984`, or with what follows it a time, as in
/// `2012-01-02 08:00`: neither is a number, nor has one in it.
pub fn is_dated(text: &str, after: &str) -> bool
    ensures { result ≡ is_dated (chars text.now) (chars after.now) }
{
    has_date(text) || is_time(text, after)
}
