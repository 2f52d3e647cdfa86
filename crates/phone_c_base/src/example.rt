//! The example number of a region and a kind, as plain numbers, whose texts go into a buffer.
ghost use Rattle.std.specs.Prelude.{◌≡◌, ◌⊎◌, ◌↔◌, None};
ghost use Rattle.phone_values.specs.Ids.{id_of};
ghost use Rattle.phone_c_base.specs.Examples.{HasNoExample, IsExample, IsExampleRefused};
ghost use Rattle.phone_c_base.specs.Examples.{IsExampleTooLong};
ghost use Rattle.phone_c_base.specs.Kinds.{kind_of};

use crate::asked::kind_of;
use crate::hint::id_of;
use crate::number::Number;
use crate::parse::write_number;
use crate::status::{MEMORY, NO_EXAMPLE, NO_KIND, NO_REGION, OK, TOO_SMALL};
use phone_engine::Engine;

/// Reads the example number of a region and a kind by an engine's rules into plain numbers and a
/// buffer; the region is the hint.
pub fn example(
    engine: Engine<'_>,
    region: &[u8],
    kind: u32,
    number: &mut Number,
    out: &mut [u8],
    wrote: &mut usize,
) -> u32
    ensures read { result ≡ OK → IsExample engine.entry.rules engine.entry.database.now
        region.now kind number.new out.old out.new wrote.new }
    ensures too_small { result ≡ TOO_SMALL → IsExampleTooLong engine.entry.rules
        engine.entry.database.now region.now kind out.old out.new wrote.new }
    ensures no_region { (result ≡ NO_REGION) ↔ (id_of region.now ≡ None) }
    ensures no_kind { (result ≡ NO_KIND) ↔ (¬ (id_of region.now ≡ None) × (kind_of kind ≡ None)) }
    ensures no_example { (result ≡ NO_EXAMPLE) ↔
        HasNoExample engine.entry.database.now region.now kind }
    ensures refused { ¬ (result ≡ OK) → ¬ (result ≡ TOO_SMALL) → ¬ (result ≡ NO_REGION) →
        ¬ (result ≡ NO_KIND) → ¬ (result ≡ NO_EXAMPLE) → (result ≡ MEMORY) ⊎
        IsExampleRefused engine.entry.rules engine.entry.database.now region.now kind result }
    ensures untouched { ¬ (result ≡ OK) → out.new ≡ out.old }
    ensures kept { ¬ (result ≡ OK) → number.new ≡ number.old }
    ensures no_length { ¬ (result ≡ OK) → ¬ (result ≡ TOO_SMALL) → wrote.new ≡ 0 }
{
    *wrote = 0;
    let Some(region) = id_of(region) else {
        return NO_REGION;
    };
    let Some(kind) = kind_of(kind) else {
        return NO_KIND;
    };
    match phone_engine::example(engine, region, kind) {
        Ok(Some(read)) => write_number(&read, number, out, wrote),
        Ok(None) => NO_EXAMPLE,
        Err(error) => u32::from(error.number()),
    }
}
