//! What a database tells of a number that is given as plain numbers.
ghost use Rattle.std.specs.Prelude.{◌≡◌, ◌↔◌, ◌==◌, IfOk, string_bytes};
ghost use Rattle.std.specs.List.{find};
ghost use Rattle.phone_engine.specs.Facts.{region_by};
ghost use Rattle.phone_print.specs.Texts.{e164_text};
ghost use Rattle.phone_c_base.specs.Answers.{IsKey, IsKind, IsRegion, IsValidity, kind_number};
ghost use Rattle.phone_c_base.specs.Buffers.{IsTooLongA, IsWrittenA};
ghost use Rattle.phone_c_base.specs.Kinds.{kind_of};
ghost use Rattle.phone_c_base.specs.Numbers.{AreNone};

use crate::buffer::give;
use crate::number::{Number, bare};
use crate::status::{BAD_NUMBER, MEMORY, OK, TOO_SMALL};
use phone_engine::{Engine, Rules};
use phone_values::KINDS;
use phone_values::country::Id;
use phonenumber::{PhoneNumber, Type};
use std::alloc::{AllocError, Global};

/// A kind by its number.
pub fn kind_number(kind: Type) -> u32
    ensures { result ≡ kind_number kind }
{
    match kind {
        Type::FixedLine => 0,
        Type::Mobile => 1,
        Type::FixedLineOrMobile => 2,
        Type::TollFree => 3,
        Type::PremiumRate => 4,
        Type::SharedCost => 5,
        Type::PersonalNumber => 6,
        Type::Voip => 7,
        Type::Pager => 8,
        Type::Uan => 9,
        Type::Emergency => 10,
        Type::Voicemail => 11,
        Type::ShortCode => 12,
        Type::StandardRate => 13,
        Type::Carrier => 14,
        Type::NoInternational => 15,
        Type::Unknown => 16,
    }
}

/// The kind that has this number; none where it is above 16.
#[tactic(auto, unfolding(crate::specs::Kinds::kind_of))]
pub fn kind_of(number: u32) -> Option<Type>
    ensures { result ≡ kind_of number }
{
    find_kind(&KINDS, number)
}

/// The first of the kinds that has this number.
fn find_kind(kinds: &[Type], number: u32) -> Option<Type>
    ensures { result ≡ find (λ kind. kind_number kind == number) kinds.now }
{
    kinds
        .iter()
        .copied()
        .find(|kind| kind_number(*kind) == number)
}

/// The region of a number by an engine's rules. Refused only for memory.
fn region_by(engine: Engine<'_>, number: &PhoneNumber) -> Result<Option<Id>, AllocError>
    ensures { IfOk result
        (λ id. id ≡ region_by engine.entry.rules engine.entry.database.now number.now) }
{
    match engine.rules {
        Rules::Library => phone_library::region(engine.database, number),
        Rules::Crate => number.country().id(engine.database),
    }
}

/// The kind of a number by an engine's rules, by the kind's number.
pub fn kind(engine: Engine<'_>, number: &Number, kind: &mut u32) -> u32
    ensures told { result ≡ OK →
        IsKind engine.entry.rules engine.entry.database.now number.now kind.new }
    ensures bad { (result ≡ BAD_NUMBER) ↔ AreNone number.now }
    ensures other { ¬ (result ≡ OK) → ¬ (result ≡ BAD_NUMBER) → result ≡ MEMORY }
    ensures untouched { ¬ (result ≡ OK) → kind.new ≡ kind.old }
{
    let Some(number) = bare(number) else {
        return BAD_NUMBER;
    };
    match engine.facts(&number) {
        Ok(facts) => {
            *kind = kind_number(facts.kind);
            OK
        }
        Err(_) => MEMORY,
    }
}

/// Whether a number is valid by an engine's rules: 1, else 0.
pub fn validity(engine: Engine<'_>, number: &Number, valid: &mut u8) -> u32
    ensures told { result ≡ OK →
        IsValidity engine.entry.rules engine.entry.database.now number.now valid.new }
    ensures bad { (result ≡ BAD_NUMBER) ↔ AreNone number.now }
    ensures other { ¬ (result ≡ OK) → ¬ (result ≡ BAD_NUMBER) → result ≡ MEMORY }
    ensures untouched { ¬ (result ≡ OK) → valid.new ≡ valid.old }
{
    let Some(number) = bare(number) else {
        return BAD_NUMBER;
    };
    match engine.is_valid(&number) {
        Ok(told) => {
            *valid = if told { 1 } else { 0 };
            OK
        }
        Err(_) => MEMORY,
    }
}

/// The id of a number's region by an engine's rules, in a buffer; no byte where it has none.
pub fn region(engine: Engine<'_>, number: &Number, out: &mut [u8], wrote: &mut usize) -> u32
    ensures written { result ≡ OK →
        IsWrittenA (IsRegion engine.entry.rules engine.entry.database.now number.now)
        out.old out.new wrote.new }
    ensures too_small { result ≡ TOO_SMALL →
        IsTooLongA (IsRegion engine.entry.rules engine.entry.database.now number.now)
        out.old out.new wrote.new }
    ensures bad { (result ≡ BAD_NUMBER) ↔ AreNone number.now }
    ensures other { ¬ (result ≡ OK) → ¬ (result ≡ TOO_SMALL) → ¬ (result ≡ BAD_NUMBER) →
        result ≡ MEMORY }
    ensures untouched { ¬ (result ≡ OK) → out.new ≡ out.old }
    ensures no_length { ¬ (result ≡ OK) → ¬ (result ≡ TOO_SMALL) → wrote.new ≡ 0 }
{
    *wrote = 0;
    let Some(number) = bare(number) else {
        return BAD_NUMBER;
    };
    match region_by(engine, &number) {
        Ok(Some(id)) => give(id.as_str().as_bytes(), out, wrote),
        Ok(None) => give(b"", out, wrote),
        Err(_) => MEMORY,
    }
}

/// The E.164 text of a number, in a buffer.
pub fn key(alloc: Global, number: &Number, out: &mut [u8], wrote: &mut usize) -> u32
    ensures written { result ≡ OK → IsWrittenA (IsKey number.now) out.old out.new wrote.new }
    ensures too_small { result ≡ TOO_SMALL →
        IsTooLongA (IsKey number.now) out.old out.new wrote.new }
    ensures bad { (result ≡ BAD_NUMBER) ↔ AreNone number.now }
    ensures other { ¬ (result ≡ OK) → ¬ (result ≡ TOO_SMALL) → ¬ (result ≡ BAD_NUMBER) →
        result ≡ MEMORY }
    ensures untouched { ¬ (result ≡ OK) → out.new ≡ out.old }
    ensures no_length { ¬ (result ≡ OK) → ¬ (result ≡ TOO_SMALL) → wrote.new ≡ 0 }
{
    *wrote = 0;
    let Some(number) = bare(number) else {
        return BAD_NUMBER;
    };
    match e164(alloc, &number) {
        Ok(text) => give(text.as_bytes(), out, wrote),
        Err(_) => MEMORY,
    }
}

/// The E.164 text of a number. Refused only for memory.
fn e164(alloc: Global, number: &PhoneNumber) -> Result<String, AllocError>
    ensures { IfOk result (λ text. string_bytes text ≡ e164_text number.now) }
{
    number.to_string(alloc)
}
