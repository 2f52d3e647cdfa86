//! Whether two texts are one number.
ghost use Rattle.std.specs.Prelude.{◌≡◌, ◌⊎◌, ◌↔◌, IsUtf8};
ghost use Rattle.phone_c_base.specs.Comparisons.{AreAlike, AreRefusedAs, sameness_number};

use crate::status::{MEMORY, NOT_UTF8, OK};
use phone_engine::{Engine, Sameness, compare_texts};

/// How like two numbers are, by its number.
fn sameness_number(sameness: Sameness) -> u32
    ensures { result ≡ sameness_number sameness }
{
    match sameness {
        Sameness::Exact => 0,
        Sameness::Number => 1,
        Sameness::National => 2,
        Sameness::End => 3,
        Sameness::Different => 4,
    }
}

/// Whether two texts are one number by an engine's rules; its hint counts for neither.
pub fn comparison(engine: Engine<'_>, first: &[u8], second: &[u8], told: &mut u32) -> u32
    ensures told { result ≡ OK → AreAlike engine.entry.rules engine.entry.database.now
        first.now second.now told.new }
    ensures not_utf8 { (result ≡ NOT_UTF8) ↔ ¬ (IsUtf8 first.now × IsUtf8 second.now) }
    ensures refused { ¬ (result ≡ OK) → ¬ (result ≡ NOT_UTF8) → (result ≡ MEMORY) ⊎
        AreRefusedAs engine.entry.rules engine.entry.database.now first.now second.now result }
    ensures untouched { ¬ (result ≡ OK) → told.new ≡ told.old }
{
    let Ok(first) = std::str::from_utf8(first) else {
        return NOT_UTF8;
    };
    let Ok(second) = std::str::from_utf8(second) else {
        return NOT_UTF8;
    };
    match compare_texts(engine, first, second) {
        Ok(sameness) => {
            *told = sameness_number(sameness);
            OK
        }
        Err(error) => u32::from(error.number()),
    }
}
