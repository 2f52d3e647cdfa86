//! The printing of a number that is given as plain numbers.
ghost use Rattle.std.specs.Prelude.{◌≡◌, ◌↔◌, ◌<◌, Some, None, Err, IfOk, IfSome, IfNone};
ghost use Rattle.std.specs.Prelude.{string_bytes};
ghost use Rattle.phone_library.specs.Printed.{printed_by};
ghost use Rattle.phone_engine.specs.Facts.{printed_as};
ghost use Rattle.phone_c_base.specs.Answers.{IsPrinted, IsUnprinted, mode_number};
ghost use Rattle.phone_c_base.specs.Buffers.{IsTooLongA, IsWrittenA};
ghost use Rattle.phone_c_base.specs.Numbers.{AreNoNumber};

use crate::buffer::give;
use crate::number::{Number, to_phone_number};
use crate::status::{BAD_NUMBER, MEMORY, NO_MODE, OK, TOO_SMALL, UNKNOWN_CODE};
use phone_engine::{Engine, Rules};
use phone_library::{printed, without_carrier};
use phone_plans::Plans;
use phonenumber::{FormatError, Mode, PhoneNumber, format_with};

/// A mode, of its number; none for others than these four.
fn mode_of(number: u32) -> Option<Mode>
    ensures found { IfSome result (λ m. mode_number m ≡ number) }
    ensures none { IfNone result (3 < number) }
{
    match number {
        0 => Some(Mode::E164),
        1 => Some(Mode::International),
        2 => Some(Mode::National),
        3 => Some(Mode::Rfc3966),
        _ => None,
    }
}

/// The text of a number in a mode, as the crate prints it.
fn text_in(database: &Plans, number: &PhoneNumber, mode: Mode) -> Result<String, FormatError>
    ensures text { IfOk result (λ t.
        printed_by Rules.Crate database.now mode number.now ≡ Some (string_bytes t)) }
    ensures unknown { (result ≡ Err FormatError.UnknownCode) ↔
        (printed_by Rules.Crate database.now mode number.now ≡ None) }
{
    format_with(database, number)
        .mode(mode)
        .to_text(database.allocator())
}

/// The text of a number in a mode, as an engine's rules print it.
pub fn text_by(engine: Engine<'_>, number: &PhoneNumber, mode: Mode) -> Result<String, FormatError>
    ensures text { IfOk result (λ t. printed_by engine.entry.rules engine.entry.database.now mode
        (printed_as engine.entry.rules number.now) ≡ Some (string_bytes t)) }
    ensures unknown { result ≡ Err FormatError.UnknownCode →
        printed_by engine.entry.rules engine.entry.database.now mode
        (printed_as engine.entry.rules number.now) ≡ None }
{
    match engine.rules {
        Rules::Library => text_without_carrier(engine.database, number, mode),
        Rules::Crate => text_in(engine.database, number, mode),
    }
}

/// The text of a number without its carrier, in a mode, as libphonenumber prints it.
fn text_without_carrier(
    database: &Plans,
    number: &PhoneNumber,
    mode: Mode,
) -> Result<String, FormatError>
    ensures text { IfOk result (λ t. printed_by Rules.Library database.now mode
        (printed_as Rules.Library number.now) ≡ Some (string_bytes t)) }
    ensures unknown { result ≡ Err FormatError.UnknownCode →
        printed_by Rules.Library database.now mode (printed_as Rules.Library number.now) ≡ None }
{
    match without_carrier(number) {
        Ok(number) => printed(database, mode, &number),
        Err(_) => Err(FormatError::Memory),
    }
}

/// The text of a number in a mode, as an engine's rules print it, in a buffer.
pub fn print(
    engine: Engine<'_>,
    number: &Number,
    bytes: &[u8],
    mode: u32,
    out: &mut [u8],
    wrote: &mut usize,
) -> u32
    ensures written { result ≡ OK →
        IsWrittenA (IsPrinted engine.entry.rules engine.entry.database.now number.now bytes.now
        mode) out.old out.new wrote.new }
    ensures too_small { result ≡ TOO_SMALL →
        IsTooLongA (IsPrinted engine.entry.rules engine.entry.database.now number.now bytes.now
        mode) out.old out.new wrote.new }
    ensures no_mode { (result ≡ NO_MODE) ↔ (3 < mode) }
    ensures bad { (result ≡ BAD_NUMBER) ↔
        (¬ (3 < mode) × AreNoNumber number.now bytes.now) }
    ensures unknown { result ≡ UNKNOWN_CODE →
        IsUnprinted engine.entry.rules engine.entry.database.now number.now bytes.now mode }
    ensures other { ¬ (result ≡ OK) → ¬ (result ≡ TOO_SMALL) → ¬ (result ≡ NO_MODE) →
        ¬ (result ≡ BAD_NUMBER) → ¬ (result ≡ UNKNOWN_CODE) → result ≡ MEMORY }
    ensures untouched { ¬ (result ≡ OK) → out.new ≡ out.old }
    ensures no_length { ¬ (result ≡ OK) → ¬ (result ≡ TOO_SMALL) → wrote.new ≡ 0 }
{
    *wrote = 0;
    let Some(mode) = mode_of(mode) else {
        return NO_MODE;
    };
    let number = match to_phone_number(engine.database.allocator(), number, bytes) {
        Ok(number) => number,
        Err(status) => return status,
    };
    match text_by(engine, &number, mode) {
        Ok(text) => give(text.as_bytes(), out, wrote),
        Err(FormatError::UnknownCode) => UNKNOWN_CODE,
        Err(FormatError::Memory) => MEMORY,
    }
}
