//! Whether two texts are one number.
ghost use Rattle.std.specs.Prelude.{◌≡◌, ◌⊎◌, Err, IfOk, chars, nat_eq};
ghost use Rattle.std.specs.List.{ends_with};
ghost use Rattle.phone_engine.specs.Sameness.{IsAnswer, is_end, is_end_of_either};
ghost use Rattle.phone_engine.specs.Sameness.{is_one_extension, sameness_of};
ghost use Rattle.phone_engine.specs.Sameness.{sameness_by_end, sameness_under_code};
ghost use Rattle.phone_engine.specs.Sameness.{sameness_without_code};

use crate::Engine;
use crate::sides::{Side, taken_as};
use phone_values::{Extension, ParseError};
use std::alloc::{AllocError, Global};

/// The fewest digits that are told to be an end of others.
const MIN_LENGTH_OF_END: usize = 7;

/// How like two numbers are.
#[derive(Clone, Copy, PartialEq, Eq, Debug)]
pub enum Sameness {
    /// One calling code, one national number, and one extension or none.
    Exact,

    /// One calling code and one national number; the extensions differ.
    Number,

    /// One of them at least has no calling code, and the national numbers are one, leading zeros
    /// aside.
    National,

    /// The national number of one, leading zeros aside, is an end of the other's, of seven digits
    /// at least; and they haven't two calling codes that differ.
    End,

    /// None of these.
    Different,
}

/// Whether two texts are one number by an engine's rules and database, each perhaps without its
/// calling code. They are read without a hint: the engine's counts for neither. Refused as
/// [`taken_as`] refuses the first text, else as it refuses the second; `Memory` where memory was
/// refused.
///
/// In the other order the answer is the same, and so is a refusal, unless both texts are refused,
/// each for a reason of its own: then the two refusals change places.
pub fn compare_texts(engine: Engine<'_>, a: &str, b: &str) -> Result<Sameness, ParseError>
    ensures { (result ≡ Err ParseError.Memory) ⊎
        IsAnswer engine.entry.rules engine.entry.database.now (chars a.now) (chars b.now) result }
{
    let a = taken_as(engine, a)?;
    let b = taken_as(engine, b)?;
    Ok(sameness_of(engine.database.allocator(), &a, &b)?)
}

/// How like two sides are. Refused only for memory.
pub fn sameness_of(alloc: Global, a: &Side, b: &Side) -> Result<Sameness, AllocError>
    ensures { IfOk result (λ s. s ≡ sameness_of a.now b.now) }
{
    match (a.code, b.code) {
        (Some(x), Some(y)) => {
            if x == y {
                sameness_under_code(alloc, a, b)
            } else {
                Ok(Sameness::Different)
            }
        }
        _ => sameness_without_code(alloc, a, b),
    }
}

/// How like two sides of one calling code are. Refused only for memory.
fn sameness_under_code(alloc: Global, a: &Side, b: &Side) -> Result<Sameness, AllocError>
    ensures { IfOk result (λ s. s ≡ sameness_under_code a.now b.now) }
{
    let (x, y) = (a.national, b.national);
    if x.zeros() != y.zeros() || x.value() != y.value() {
        return sameness_by_end(alloc, a, b);
    }
    if is_one_extension(&a.extension, &b.extension) {
        Ok(Sameness::Exact)
    } else {
        Ok(Sameness::Number)
    }
}

/// How like two sides are of which one at least has no calling code. Refused only for memory.
fn sameness_without_code(alloc: Global, a: &Side, b: &Side) -> Result<Sameness, AllocError>
    ensures { IfOk result (λ s. s ≡ sameness_without_code a.now b.now) }
{
    if a.national.value() == b.national.value() {
        Ok(Sameness::National)
    } else {
        sameness_by_end(alloc, a, b)
    }
}

/// Whether one side's digits are an end of the other's. Refused only for memory.
fn sameness_by_end(alloc: Global, a: &Side, b: &Side) -> Result<Sameness, AllocError>
    ensures { IfOk result (λ s. s ≡ sameness_by_end a.now b.now) }
{
    if is_end_of_either(alloc, a.national.value(), b.national.value())? {
        Ok(Sameness::End)
    } else {
        Ok(Sameness::Different)
    }
}

/// Whether the digits of one value are an end of the other's. Refused only for memory.
fn is_end_of_either(alloc: Global, x: u64, y: u64) -> Result<bool, AllocError>
    ensures { IfOk result (λ found. found ≡ is_end_of_either x y) }
{
    let x = x.to_string(alloc)?;
    let y = y.to_string(alloc)?;
    Ok(is_end(x.as_str(), y.as_str()) || is_end(y.as_str(), x.as_str()))
}

/// Whether seven digits at least are an end of other digits.
fn is_end(end: &str, digits: &str) -> bool
    ensures { result ≡ is_end end.now digits.now }
{
    end.len() >= MIN_LENGTH_OF_END && stands_at_end(end, digits)
}

/// Whether one text is an end of another.
fn stands_at_end(end: &str, text: &str) -> bool
    ensures { result ≡ ends_with nat_eq text.now end.now }
{
    text.ends_with(end)
}

/// Whether both extensions are absent, or of one text.
fn is_one_extension(a: &Option<Extension>, b: &Option<Extension>) -> bool
    ensures { result ≡ is_one_extension a.now b.now }
{
    match (a, b) {
        (None, None) => true,
        (Some(a), Some(b)) => a.as_str() == b.as_str(),
        _ => false,
    }
}
