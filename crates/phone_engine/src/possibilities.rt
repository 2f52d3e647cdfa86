//! Whether a number is possible: what its length alone says of it.
ghost use Rattle.std.specs.Prelude.{◌≡◌, ◌⊎◌, ◌==◌, Err, Result, IfOk, chars, map, nat_lt};
ghost use Rattle.std.specs.Borrow.{Bor};
ghost use Rattle.std.specs.List.{filter_map, flat_map, list_all};
ghost use Rattle.phone_territory.specs.Kinds.{descriptor_for, kinds_of};
ghost use Rattle.std.specs.Option.{option_copied};
ghost use Rattle.phone_values.specs.Numbers.{text_of};
ghost use Rattle.phone_values.specs.declared.error.ParseError.{ParseError as Refusal};
ghost use Rattle.phone_values.specs.declared.reading.Reading.{Reading};
ghost use Rattle.phone_records.specs.declared.loader.Descriptor as loader;
ghost use Rattle.phone_engine.specs.Possibilities.{counting_descriptors, counting_territory};
ghost use Rattle.phone_engine.specs.Possibilities.{is_among, kind_descriptors, lengths_of};
ghost use Rattle.phone_engine.specs.Possibilities.{local_lengths_of, possibility_by};
ghost use Rattle.phone_engine.specs.Possibilities.{possibility_by_crate, possibility_by_library};
ghost use Rattle.phone_engine.specs.Possibilities.{possibility_of, possibility_read, verdict_said};
ghost use Rattle.phone_engine.specs.Possibilities.{possibility_under};
ghost use Rattle.phone_engine.specs.Readings.{ReadsBy};

use crate::{Engine, Rules};
use phone_library::length_in;
use phone_plans::{Descriptor, Plans, Territory};
use phone_read::kinds::TRIED;
use phone_read::validator::territory_of;
use phone_values::{ParseError, Type, Validation};
use phonenumber::PhoneNumber;
use std::alloc::{AllocError, Global};

/// What the length of a number says of it.
#[derive(Clone, Copy, PartialEq, Eq, Debug)]
pub enum Possibility {
    /// Numbers of the territory have this many digits.
    Possible,

    /// This many digits suffice where a number is dialled inside its area.
    PossibleLocally,

    /// Each number of the territory has more digits: while one is typed, go on.
    TooShort,

    /// Each number of the territory has fewer digits.
    TooLong,

    /// Some numbers have fewer digits and some more; or the territory lists no length.
    WrongLength,

    /// No territory has the calling code.
    UnknownCode,
}

/// Whether a number is possible by an engine's rules, by the count of its digits, leading zeros
/// among them.
///
/// By the rules of libphonenumber the lengths that count are those that the first territory of its
/// calling code lists for numbers of any kind; where it lists none, each is possible.
///
/// By those of the crate they are those that the number's territory lists for numbers of any kind;
/// where it lists none, those of each kind that a number may be of. Its territory is the one that
/// its digits belong to, or else the first of its calling code.
///
/// Refused only for memory.
pub fn possibility_of(engine: Engine<'_>, number: &PhoneNumber) -> Result<Possibility, AllocError>
    ensures { IfOk result
        (λ p. p ≡ possibility_of engine.entry.rules engine.entry.database.now number.now) }
{
    match engine.rules {
        Rules::Library => possible_by_library(engine.database, number),
        Rules::Crate => possible_by_crate(engine.database, number),
    }
}

/// The same by the rules of libphonenumber.
fn possible_by_library(database: &Plans, number: &PhoneNumber) -> Result<Possibility, AllocError>
    ensures { IfOk result (λ p. p ≡ possibility_by_library database.now number.now) }
{
    let Some(territory) = database.first_by_code(&number.code().value()) else {
        return Ok(Possibility::UnknownCode);
    };
    let national = number.national();
    let digits = national.to_string(database.allocator())?;
    Ok(verdict_said(length_in(territory, digits.len())))
}

/// A verdict on a length, as it is said of a number.
fn verdict_said(verdict: Validation) -> Possibility
    ensures { result ≡ verdict_said verdict }
{
    match verdict {
        Validation::IsPossible => Possibility::Possible,
        Validation::IsPossibleLocalOnly => Possibility::PossibleLocally,
        Validation::TooShort => Possibility::TooShort,
        Validation::TooLong => Possibility::TooLong,
        Validation::InvalidLength => Possibility::WrongLength,
        Validation::InvalidCountryCode => Possibility::UnknownCode,
    }
}

/// The same by the rules of the crate.
fn possible_by_crate(database: &Plans, number: &PhoneNumber) -> Result<Possibility, AllocError>
    ensures { IfOk result (λ p. p ≡ possibility_by_crate database.now number.now) }
{
    let digits = number.national().to_string(database.allocator())?;
    match counting_territory(database, number, digits.as_str())? {
        Some(territory) => possible_length(territory, digits.len()),
        None => Ok(Possibility::UnknownCode),
    }
}

/// Whether a text, perhaps not yet whole, is a possible number, as an engine reads it.
/// `TooShort` and `TooLong` also where it is refused as too short or too long, and `UnknownCode`
/// where it is refused for its calling code. `NoNumber` and `MalformedInteger` as [`Engine::parse`]
/// refuses it; `Memory` where memory was refused.
pub fn possibility_of_text(engine: Engine<'_>, text: &str) -> Result<Possibility, ParseError>
    ensures { (result ≡ Err ParseError.Memory) ⊎ ((r : Result Reading Refusal) ×
        ReadsBy engine.entry.rules engine.entry.database.now engine.entry.hint (chars text.now) r ×
        (result ≡ possibility_read engine.entry.rules engine.entry.database.now r)) }
{
    match engine.parse(text) {
        Ok(number) => match possibility_of(engine, &number) {
            Ok(possibility) => Ok(possibility),
            Err(_) => Err(ParseError::Memory),
        },
        Err(ParseError::InvalidCountryCode) => Ok(Possibility::UnknownCode),
        Err(ParseError::TooShortAfterIdd | ParseError::TooShortNsn) => Ok(Possibility::TooShort),
        Err(ParseError::TooLong) => Ok(Possibility::TooLong),
        Err(error) => Err(error),
    }
}

/// The territory that the digits of a number belong to, or else the first of its calling code.
fn counting_territory<'a>(
    database: &'a Plans,
    number: &PhoneNumber,
    digits: &str,
) -> Result<Option<&'a Territory>, AllocError>
    requires { digits.now ≡ text_of number.now.national }
    ensures { IfOk result (λ m. option_copied m ≡
        counting_territory database.entry.now number.now) }
{
    let code = number.code().value();
    match territory_of(database, code, digits)? {
        Some(territory) => Ok(Some(territory)),
        None => Ok(database.first_by_code(&code)),
    }
}

/// What a count of digits says under a territory. Refused only for memory.
fn possible_length(m: &Territory, digits: usize) -> Result<Possibility, AllocError>
    ensures { IfOk result (λ p. p ≡ possibility_under m.now digits) }
{
    let lengths = lengths_of(m)?;
    let local = local_lengths_of(m)?;
    Ok(possibility_by(lengths.as_slice(), local.as_slice(), digits))
}

/// What a count of digits says by a list of lengths and a list of local ones.
fn possibility_by(lengths: &[u16], local: &[u16], digits: usize) -> Possibility
    ensures { result ≡ possibility_by lengths.now local.now digits }
{
    if is_among(digits, lengths) {
        Possibility::Possible
    } else if is_among(digits, local) {
        Possibility::PossibleLocally
    } else if lengths.is_empty() {
        Possibility::WrongLength
    } else if is_less_than_each(digits, lengths) {
        Possibility::TooShort
    } else if is_more_than_each(digits, lengths) {
        Possibility::TooLong
    } else {
        Possibility::WrongLength
    }
}

fn is_among(digits: usize, lengths: &[u16]) -> bool
    ensures { result ≡ is_among digits lengths.now }
{
    lengths.iter().any(|l| usize::from(*l) == digits)
}

fn is_less_than_each(digits: usize, lengths: &[u16]) -> bool
    ensures { result ≡ list_all (λ l. nat_lt digits l) lengths.now }
{
    lengths.iter().all(|l| digits < usize::from(*l))
}

fn is_more_than_each(digits: usize, lengths: &[u16]) -> bool
    ensures { result ≡ list_all (λ l. nat_lt l digits) lengths.now }
{
    lengths.iter().all(|l| usize::from(*l) < digits)
}

/// The lengths of a territory's numbers. Refused only for memory.
#[tactic(auto, using(crate::proofs::Lent::lengths_lent))]
fn lengths_of(m: &Territory) -> Result<Vec<u16>, AllocError>
    ensures { IfOk result (λ v. v.items ≡ lengths_of m.now) }
{
    let counting = counting_descriptors(m)?;
    all_lengths(m.allocator(), counting.as_slice())
}

/// The lengths of these descriptors, one's after another's. Refused only for memory.
fn all_lengths(alloc: Global, counting: &[&Descriptor]) -> Result<Vec<u16>, AllocError>
    ensures { IfOk result (λ v. v.items ≡
        flat_map (λ (d : Bor loader.Descriptor). d.now.possible_length) counting.now) }
{
    let mut lengths = Vec::new(alloc);
    for descriptor in counting {
        lengths.extend_from_slice(descriptor.possible_length())?;
    }
    Ok(lengths)
}

/// The lengths that suffice inside an area. Refused only for memory.
#[tactic(auto, using(crate::proofs::Lent::local_lengths_lent))]
fn local_lengths_of(m: &Territory) -> Result<Vec<u16>, AllocError>
    ensures { IfOk result (λ v. v.items ≡ local_lengths_of m.now) }
{
    let counting = counting_descriptors(m)?;
    all_local_lengths(m.allocator(), counting.as_slice())
}

/// The local lengths of these descriptors, one's after another's. Refused only for memory.
fn all_local_lengths(alloc: Global, counting: &[&Descriptor]) -> Result<Vec<u16>, AllocError>
    ensures { IfOk result (λ v. v.items ≡
        flat_map (λ (d : Bor loader.Descriptor). d.now.possible_local_length) counting.now) }
{
    let mut lengths = Vec::new(alloc);
    for descriptor in counting {
        lengths.extend_from_slice(descriptor.possible_local_length())?;
    }
    Ok(lengths)
}

/// The descriptors whose lengths count: the general one where it lists any, else those of the
/// kinds. Refused only for memory.
fn counting_descriptors(m: &Territory) -> Result<Vec<&Descriptor>, AllocError>
    ensures { IfOk result (λ v. map (λ (d : Bor loader.Descriptor). d.now) v.items ≡
        counting_descriptors m.entry.now) }
{
    let general = m.descriptors().general();
    if general.possible_length().is_empty() {
        return kind_descriptors(m);
    }
    let mut alone = Vec::new(m.allocator());
    alone.push(general)?;
    Ok(alone)
}

/// The descriptors of the kinds that a number is told to be of. Refused only for memory.
fn kind_descriptors(m: &Territory) -> Result<Vec<&Descriptor>, AllocError>
    ensures { IfOk result (λ v. map (λ (d : Bor loader.Descriptor). d.now) v.items ≡
        kind_descriptors m.entry.now) }
{
    descriptors_of(m, &TRIED)
}

/// The descriptors of these kinds, of those that have one. Refused only for memory.
fn descriptors_of<'a>(m: &'a Territory, kinds: &[Type]) -> Result<Vec<&'a Descriptor>, AllocError>
    ensures { IfOk result (λ v. map (λ (d : Bor loader.Descriptor). d.now) v.items ≡
        filter_map (λ k. descriptor_for k (kinds_of m.entry.now)) kinds.now) }
{
    let mut found = Vec::new(m.allocator());
    for kind in kinds {
        if let Some(descriptor) = m.descriptors().get(*kind) {
            found.push(descriptor)?;
        }
    }
    Ok(found)
}
