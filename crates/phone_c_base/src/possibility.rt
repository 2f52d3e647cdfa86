//! Whether a number that is given as plain numbers, or a text, is possible.
ghost use Rattle.std.specs.Prelude.{◌≡◌, ◌⊎◌, ◌↔◌, IsUtf8};
ghost use Rattle.phone_c_base.specs.Numbers.{AreNone};
ghost use Rattle.phone_c_base.specs.Possibilities.{IsNoPossibility, IsPossibility};
ghost use Rattle.phone_c_base.specs.Possibilities.{IsTextPossibility, possibility_number};

use crate::number::{Number, bare};
use crate::status::{BAD_NUMBER, MEMORY, NOT_UTF8, OK};
use phone_engine::{Engine, Possibility, possibility_of, possibility_of_text};

/// What a length says, by its number.
fn possibility_number(possibility: Possibility) -> u32
    ensures { result ≡ possibility_number possibility }
{
    match possibility {
        Possibility::Possible => 0,
        Possibility::PossibleLocally => 1,
        Possibility::TooShort => 2,
        Possibility::TooLong => 3,
        Possibility::WrongLength => 4,
        Possibility::UnknownCode => 5,
    }
}

/// Whether a number is possible by an engine's rules.
pub fn possibility(engine: Engine<'_>, number: &Number, told: &mut u32) -> u32
    ensures told { result ≡ OK →
        IsPossibility engine.entry.rules engine.entry.database.now number.now told.new }
    ensures bad { (result ≡ BAD_NUMBER) ↔ AreNone number.now }
    ensures other { ¬ (result ≡ OK) → ¬ (result ≡ BAD_NUMBER) → result ≡ MEMORY }
    ensures untouched { ¬ (result ≡ OK) → told.new ≡ told.old }
{
    let Some(number) = bare(number) else {
        return BAD_NUMBER;
    };
    match possibility_of(engine, &number) {
        Ok(possibility) => {
            *told = possibility_number(possibility);
            OK
        }
        Err(_) => MEMORY,
    }
}

/// Whether a text is a possible number.
pub fn text_possibility(engine: Engine<'_>, text: &[u8], told: &mut u32) -> u32
    ensures told { result ≡ OK → IsTextPossibility engine.entry.rules engine.entry.database.now
        engine.entry.hint text.now told.new }
    ensures not_utf8 { (result ≡ NOT_UTF8) ↔ ¬ (IsUtf8 text.now) }
    ensures refused { ¬ (result ≡ OK) → ¬ (result ≡ NOT_UTF8) →
        (result ≡ MEMORY) ⊎ IsNoPossibility engine.entry.rules engine.entry.database.now
        engine.entry.hint text.now result }
    ensures untouched { ¬ (result ≡ OK) → told.new ≡ told.old }
{
    let Ok(text) = std::str::from_utf8(text) else {
        return NOT_UTF8;
    };
    match possibility_of_text(engine, text) {
        Ok(possibility) => {
            *told = possibility_number(possibility);
            OK
        }
        Err(error) => u32::from(error.number()),
    }
}
