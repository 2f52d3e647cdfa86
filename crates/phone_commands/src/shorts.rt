//! What is known of short numbers.
ghost use Rattle.std.specs.Prelude.{◌≡◌, IfOk, chars, string_bytes};
ghost use Rattle.std.specs.Str.Lossy.{utf8_lossy};
ghost use Rattle.phone_commands.specs.ShortLines.{cost_word, short_fields, yes_or_no};
ghost use Rattle.phone_short.specs.Regions as regions;

use crate::text::push_line;
use phone_lines::LineTaker;
use phone_plans::Plans;
use phone_short::{Cost, ShortFacts, short_facts};
use phonenumber::country::Id;
use std::alloc::{AllocError, Global};

/// Six answers on each line, as a short number that is dialled in a region.
#[derive(Drop)]
pub struct Shorts<'d> {
    /// The database of short numbers.
    pub database: &'d Plans,
    /// The region.
    pub region: Id,
}

impl<'d> Shorts<'d> {
    /// What is known of a line. Refused only for memory.
    fn facts_of(&self, alloc: Global, line: &[u8]) -> Result<ShortFacts, AllocError>
        ensures { IfOk result (λ facts. facts ≡ regions.short_facts self.now.database.now
            self.now.region (chars (utf8_lossy line.now))) }
    {
        let text = String::from_utf8_lossy(alloc, line)?;
        short_facts(self.database, self.region, text.as_str())
    }
}

impl<'d> LineTaker for Shorts<'d> {
    ghost use Rattle.phone_commands.specs.ShortLines.{IsShortLine};
    ghost use Rattle.phone_lines.specs.Taken.{begins_with_nothing, each_by_itself};

    ghost begins = { begins_with_nothing };

    ghost gives = { each_by_itself (λ s. IsShortLine s.database.now s.region) };

    fn begin(&mut self, _alloc: Global, _answers: &mut Vec<u8>) -> Result<(), AllocError> {
        Ok(())
    }

    fn take(
        &mut self,
        alloc: Global,
        line: &[u8],
        answers: &mut Vec<u8>,
    ) -> Result<(), AllocError> {
        let facts = self.facts_of(alloc, line)?;
        let fields = short_fields(alloc, facts)?;
        push_line(answers, fields.as_str())
    }
}

/// The six answers on a short number, parted by tabs: whether its count of digits is possible,
/// whether it is valid, its cost, whether only some carriers connect it, whether it is an emergency
/// number, and whether it reaches emergency services. Refused only for memory.
fn short_fields(alloc: Global, facts: ShortFacts) -> Result<String, AllocError>
    ensures { IfOk result (λ t. string_bytes t ≡ short_fields facts) }
{
    let (possible, valid) = (yes_or_no(facts.is_possible), yes_or_no(facts.is_valid));
    let (cost, carrier) = (cost_word(facts.cost), yes_or_no(facts.is_carrier_specific));
    let emergency = yes_or_no(facts.is_emergency);
    let reaches = yes_or_no(facts.reaches_emergency);
    format!(in alloc; "{possible}\t{valid}\t{cost}\t{carrier}\t{emergency}\t{reaches}")
}

/// A cost, spelled as the kinds of numbers are: `TollFree`, `StandardRate`, `PremiumRate` or
/// `Unknown`.
fn cost_word(cost: Cost) -> &'static str
    ensures { result.now ≡ cost_word cost }
{
    match cost {
        Cost::TollFree => "TollFree",
        Cost::StandardRate => "StandardRate",
        Cost::PremiumRate => "PremiumRate",
        Cost::Unknown => "Unknown",
    }
}

/// The word `yes` or `no`.
fn yes_or_no(holds: bool) -> &'static str
    ensures { result.now ≡ yes_or_no holds }
{
    if holds { "yes" } else { "no" }
}
