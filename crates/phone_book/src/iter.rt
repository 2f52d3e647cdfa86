//! The numbers of a contact book, one after the other.
ghost use Rattle.std.specs.Prelude.{◌≡◌};

use indexmap::map::Values;
use phonenumber::PhoneNumber;
use std::marker::Model;

/// The numbers of a contact book in order of arrival. Contracts see those that are still to come.
#[derive(Drop)]
pub struct Iter<'a> {
    numbers: Values<'a, String, PhoneNumber>,
}

impl<'a> Model for Iter<'a> {
    ghost use Rattle.std.specs.Prelude.{List};
    ghost use Rattle.phone_values.specs.declared.reading.Reading.{Reading};

    ghost Value = { List Reading };

    ghost view = { λ i. i.numbers };
}

impl<'a> Iter<'a> {
    /// An iterator over these numbers.
    pub(crate) fn new(numbers: Values<'a, String, PhoneNumber>) -> Iter<'a>
        ensures { result ≡ numbers.entry }
    {
        Iter { numbers }
    }
}

impl<'a> Iterator for Iter<'a> {
    ghost use Rattle.std.specs.Iterator.{YieldsFirstRef, item_count};

    type Item = &'a PhoneNumber;

    ghost next_gives = { YieldsFirstRef (λ i. i) };

    ghost remaining = { item_count (λ i. i) };

    fn next(&mut self) -> Option<&'a PhoneNumber> {
        self.numbers.next()
    }
}
