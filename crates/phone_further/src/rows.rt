//! Records of short numbers, looked up in the order of a calling code's territories.
ghost use Rattle.std.specs.Prelude.{◌≡◌, IfSome, Some};
ghost use Rattle.std.specs.Option.{option_copied};
ghost use Rattle.phone_plans.specs.Lasts.{seen};
ghost use Rattle.phone_short.specs.Regions.{record_of};
ghost use Rattle.phone_further.specs.ShortNumbers.{region_of, short_record};
ghost use Rattle.phone_further.specs.ShortRecords.{IsWithLast};

use phone_plans::{Plans, Territory, WithLast, WithLasts};
use phone_values::country::Id;
use phone_values::equality::SameValue;
use std::marker::Model;

/// The records of a table of short numbers, of which those of a calling code stand ready in their
/// order: where the territories that are asked about come in the same order, none is looked up by
/// its id. Contracts see the table.
#[derive(Drop)]
pub(crate) struct Rows<'d> {
    short: &'d Plans,
    next: Option<WithLast<'d>>,
    rest: WithLasts<'d>,
}

impl<'d> Model for Rows<'d> {
    ghost use Rattle.std.specs.Prelude.{IfSome, List, option_map};
    ghost use Rattle.std.specs.List.{AllByRecursion};
    ghost use Rattle.phone_plans.specs.Lasts.{seen};
    ghost use Rattle.phone_records.specs.declared.loader.Metadata as loader;
    ghost use Rattle.phone_further.specs.ShortRecords.{IsWithLast};

    ghost Value = { List loader.Metadata };

    ghost view = { λ r. r.short.now };

    ghost invariant = { λ r. IfSome (option_map seen r.next) (IsWithLast r.short.now) ×
        AllByRecursion (IsWithLast r.short.now) r.rest };
}

impl<'d> Rows<'d> {
    /// The records of a table, those of a code ready.
    pub(crate) fn of_code(short: &'d Plans, code: u16) -> Rows<'d>
        ensures { result ≡ short.entry.now }
    {
        let mut rest = short.of_code_with_lasts(code);
        let next = rest.next();
        Rows { short, next, rest }
    }

    /// The short numbers of a territory's region.
    pub(crate) fn record_of(&mut self, m: &Territory) -> Option<&'d Territory>
        ensures table { self.new ≡ self.old }
        ensures record { option_copied result ≡ short_record self.old m.now }
    {
        match m.region() {
            Some(region) => self.of_region(region),
            None => None,
        }
    }

    /// The short numbers of a region.
    fn of_region(&mut self, region: Id) -> Option<&'d Territory>
        ensures table { self.new ≡ self.old }
        ensures record { option_copied result ≡ record_of self.old region }
    {
        match self.take_of(region) {
            Some(row) => row.last,
            None => self.short.by_id(region.as_str()),
        }
    }

    /// Takes the next record, where it is this region's.
    fn take_of(&mut self, region: Id) -> Option<WithLast<'d>>
        ensures table { self.new ≡ self.old }
        ensures row { IfSome result (λ row.
            (region_of row.territory.now ≡ Some region) × IsWithLast self.old (seen row)) }
    {
        let row = self.next?;
        let own = row.territory.region()?;
        if !own.is_same(&region) {
            return None;
        }
        self.next = self.rest.next();
        Some(row)
    }
}
