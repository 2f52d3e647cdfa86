//! The territories of a database, each id once.
ghost use Rattle.std.specs.Prelude.{◌≡◌};
ghost use Rattle.std.specs.Iterator.{YieldsFirstRef, item_count};
ghost use Rattle.std.specs.List.{list_any};
ghost use Rattle.phone_plans.specs.Records.{has_id};

use crate::metadata::Metadata;
use std::marker::Model;

/// For each id its last territory. Contracts see those that are still to come.
#[derive(Drop)]
pub struct Iter<'a> {
    pub(crate) rest: &'a [Metadata],
}

impl<'a> Model for Iter<'a> {
    ghost use Rattle.std.specs.Prelude.{List};
    ghost use Rattle.phone_plans.specs.Records.{lasts};
    ghost use Rattle.phone_records.specs.declared.loader.Metadata as loader;

    ghost Value = { List loader.Metadata };

    ghost view = { λ i. lasts i.rest.now };
}

impl<'a> Iterator for Iter<'a> {
    type Item = &'a Metadata;

    ghost next_gives = { YieldsFirstRef (λ i. i) };

    ghost remaining = { item_count (λ i. i) };

    fn next(&mut self) -> Option<&'a Metadata> {
        while let Some((first, others)) = self.rest.split_first() {
            self.rest = others;
            if !lists(others, first.id()) {
                return Some(first);
            }
        }
        None
    }
}

fn lists(territories: &[Metadata], id: &str) -> bool
    ensures { result ≡ list_any (has_id id.now) territories.now }
{
    territories.iter().any(|t| t.id() == id)
}
