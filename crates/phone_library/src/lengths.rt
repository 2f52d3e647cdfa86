//! What the count of national digits says of them in a territory.
ghost use Rattle.std.specs.Prelude.{◌≡◌, ◌==◌, if◌then◌else◌};
ghost use Rattle.std.specs.List.{list_any};
ghost use Rattle.phone_library.specs.Lengths.{is_too_long, length_in, may_be_left};

use phone_read::kinds::length_of;
use phone_territory::Territory;
use phone_values::{Type, Validation};

/// What so many national digits, whatever their kind, are in a territory: a number that is
/// possible, possible only within its area, too short, too long, or of a length between these that
/// no number has. A territory that lists no lengths allows each. No memory is taken.
pub fn length_in(m: &Territory, digits: usize) -> Validation
    ensures { result ≡ length_in m.now digits }
{
    let general = m.descriptors().general();
    if general.possible_length().is_empty() {
        return unless_local(general.possible_local_length(), digits);
    }
    length_of(m, digits, Type::Unknown)
}

/// The verdict on so many digits where only the local lengths are listed.
fn unless_local(local: &[u16], digits: usize) -> Validation
    ensures { result ≡ (if list_any (λ l. l == digits) local.now
        then Validation.IsPossibleLocalOnly else Validation.IsPossible) }
{
    if has_length(local, digits) {
        Validation::IsPossibleLocalOnly
    } else {
        Validation::IsPossible
    }
}

/// Whether a length is listed.
fn has_length(lengths: &[u16], digits: usize) -> bool
    ensures { result ≡ list_any (λ l. l == digits) lengths.now }
{
    lengths.iter().any(|l| usize::from(*l) == digits)
}

/// Whether there are more digits than a number may have.
pub(crate) fn is_too_long(length: Validation) -> bool
    ensures { result ≡ is_too_long length }
{
    matches!(length, Validation::TooLong)
}

/// Whether stripping may leave so many digits.
pub(crate) fn may_be_left(length: Validation) -> bool
    ensures { result ≡ may_be_left length }
{
    matches!(length, Validation::IsPossible | Validation::TooLong)
}
