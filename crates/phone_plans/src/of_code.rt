//! The territories of a calling code.
ghost use Rattle.std.specs.Prelude.{◌≡◌, ◌∷◌, ◌++◌, [], MatchOption};
ghost use Rattle.std.specs.Iterator.{YieldsFirstBy, YieldsFirstRef, item_count};
ghost use Rattle.phone_plans.specs.Lasts.{seen};

use crate::plans::Plans;
use phone_index::Coded;
use phone_territory::Territory;
use std::marker::Model;

/// Territories by their places, in the order of these. Contracts see those that are still to come.
#[derive(Drop)]
pub struct Placed<'a> {
    pub(crate) places: &'a [Coded],
    pub(crate) territories: &'a [Territory],
}

impl<'a> Model for Placed<'a> {
    ghost use Rattle.std.specs.Prelude.{List, map};
    ghost use Rattle.std.specs.List.{filter_map, slice_get};
    ghost use Rattle.phone_records.specs.declared.loader.Metadata as loader;

    ghost Value = { List loader.Metadata };

    ghost view = { λ p. filter_map (slice_get p.territories.now)
        (map (λ e. e.place) p.places.now) };
}

impl<'a> Iterator for Placed<'a> {
    type Item = &'a Territory;

    ghost next_gives = { YieldsFirstRef (λ p. p) };

    ghost remaining = { item_count (λ p. p) };

    fn next(&mut self) -> Option<&'a Territory> {
        while let Some((first, others)) = self.places.split_first() {
            self.places = others;
            if let Some(territory) = self.territories.get(first.place) {
                return Some(territory);
            }
        }
        None
    }
}

impl<'a> Placed<'a> {
    /// The same once more.
    pub fn again(&self) -> Placed<'a>
        ensures { result ≡ self.now }
    {
        Placed {
            places: self.places,
            territories: self.territories,
        }
    }

    /// Takes the last one away.
    pub fn take_last(&mut self) -> Option<&'a Territory>
        ensures { MatchOption result ((self.old ≡ []) × (self.new ≡ []))
            (λ m. self.old ≡ self.new ++ m.now ∷ []) }
    {
        while let Some((last, others)) = self.places.split_last() {
            self.places = others;
            if let Some(territory) = self.territories.get(last.place) {
                return Some(territory);
            }
        }
        None
    }
}

/// A territory, and the last one of its id, which is mostly the territory itself.
#[derive(Clone, Copy, Drop)]
pub struct WithLast<'a> {
    /// The territory.
    pub territory: &'a Territory,
    /// The last one of its id.
    pub last: Option<&'a Territory>,
}

/// Territories by their places, in the order of these, each with the last one of its id. Contracts
/// see those that are still to come.
#[derive(Drop)]
pub struct WithLasts<'a> {
    pub(crate) places: &'a [Coded],
    pub(crate) database: &'a Plans,
}

impl<'a> Model for WithLasts<'a> {
    ghost use Rattle.std.specs.Prelude.{List, Option, map, option_map};
    ghost use Rattle.std.specs.List.{filter_map, slice_get};
    ghost use Rattle.phone_plans.specs.Lasts.{with_last};
    ghost use Rattle.phone_records.specs.declared.loader.Metadata as loader;

    ghost Value = { List (loader.Metadata × Option loader.Metadata) };

    ghost view = { λ p.
        filter_map (λ k. option_map (with_last p.database.now) (slice_get p.database.now k))
        (map (λ e. e.place) p.places.now) };
}

impl<'a> Iterator for WithLasts<'a> {
    type Item = WithLast<'a>;

    ghost next_gives = { YieldsFirstBy seen (λ p. p) };

    ghost remaining = { item_count (λ p. p) };

    fn next(&mut self) -> Option<WithLast<'a>> {
        while let Some((first, others)) = self.places.split_first() {
            self.places = others;
            if let Some(found) = self.database.with_last_at(first.place) {
                return Some(found);
            }
        }
        None
    }
}

impl<'a> WithLasts<'a> {
    /// The same once more.
    pub fn again(&self) -> WithLasts<'a>
        ensures { result ≡ self.now }
    {
        WithLasts {
            places: self.places,
            database: self.database,
        }
    }

    /// Takes the last one away.
    pub fn take_last(&mut self) -> Option<WithLast<'a>>
        ensures { MatchOption result ((self.old ≡ []) × (self.new ≡ []))
            (λ t. self.old ≡ self.new ++ seen t ∷ []) }
    {
        while let Some((last, others)) = self.places.split_last() {
            self.places = others;
            if let Some(found) = self.database.with_last_at(last.place) {
                return Some(found);
            }
        }
        None
    }
}
