//! What the count of a number's digits says of it as a number of a kind.
ghost use Rattle.std.specs.Prelude.{◌≡◌, ◌&&◌, ◌||◌, ◌==◌, ◌∷◌, [], length, nat_lt};
ghost use Rattle.std.specs.List.{cons_option, list_all};
ghost use Rattle.std.specs.Option.{option_copied};
ghost use Rattle.phone_read.specs.Verdicts.{general_lengths};
ghost use Rattle.phone_values.specs.Numbers.{text_of};
ghost use Rattle.phone_questions.specs.Possible.{is_among, lengths_by, possibility_as};
ghost use Rattle.phone_questions.specs.Possible.{verdict_by, verdict_in, verdict_on, verdict_told};

use itoa::Buffer;
use phone_plans::{Plans, Territory};
use phone_territory::Descriptor;
use phone_values::{NationalNumber, Type, Validation};
use phonenumber::PhoneNumber;

/// What the count of a number's digits, its leading zeros included, says of it as a number of a
/// kind, `Unknown` being any: by the lengths of that kind in the first territory of its calling
/// code, which are the general ones where the kind lists none. `FixedLineOrMobile` means the
/// lengths of both.
///
/// `InvalidCountryCode` where the code isn't listed, `InvalidLength` where the territory has no
/// numbers of the kind, `IsPossibleLocalOnly` for a length that suffices within an area. So a valid
/// number may be said to be no possible one of its own kind, where another territory of its code
/// comes first. Takes no memory.
pub fn possibility_as(database: &Plans, kind: Type, number: &PhoneNumber) -> Validation
    ensures { result ≡ possibility_as database.now kind number.now }
{
    match database.first_by_code(&number.code().value()) {
        Some(territory) => verdict_in(kind, count_of(number.national()), territory),
        None => Validation::InvalidCountryCode,
    }
}

/// How many digits a national number has, its leading zeros included.
pub(crate) fn count_of(national: &NationalNumber) -> usize
    ensures { result ≡ length (text_of national.now) }
{
    let mut buffer = Buffer::new();
    let digits = buffer.format(national.value());
    digits.len() + usize::from(national.zeros())
}

/// What so many digits are as a number of a kind in a territory, as [`possibility_as`] has it of
/// the first one of a calling code. Takes no memory.
pub fn verdict_in(kind: Type, digits: usize, m: &Territory) -> Validation
    ensures { result ≡ verdict_in kind digits m.now }
{
    let kinds = m.descriptors();
    match kind {
        Type::FixedLineOrMobile => verdict_of_two(m, kinds.fixed_line(), kinds.mobile(), digits),
        _ => verdict_of(m, kinds.get(kind), digits),
    }
}

/// What so many digits are by a descriptor, where it is there.
fn verdict_of(m: &Territory, descriptor: Option<&Descriptor>, digits: usize) -> Validation
    ensures { result ≡ verdict_by m.now (cons_option (option_copied descriptor.entry) []) digits }
{
    match descriptor {
        Some(d) => verdict_on(lengths_by(m, d), d.possible_local_length(), digits),
        None => Validation::InvalidLength,
    }
}

/// What so many digits are by those of two descriptors that are there.
fn verdict_of_two(
    m: &Territory,
    first: Option<&Descriptor>,
    second: Option<&Descriptor>,
    digits: usize,
) -> Validation
    ensures { result ≡ verdict_by m.now (cons_option (option_copied first.entry)
        (cons_option (option_copied second.entry) [])) digits }
{
    match (first, second) {
        (Some(a), Some(b)) => verdict_of_both(m, a, b, digits),
        (None, only) => verdict_of(m, only, digits),
        (only, None) => verdict_of(m, only, digits),
    }
}

/// What so many digits are by two descriptors.
fn verdict_of_both(m: &Territory, a: &Descriptor, b: &Descriptor, digits: usize) -> Validation
    ensures { result ≡ verdict_by m.now (a.now ∷ b.now ∷ []) digits }
{
    let (first, second) = (lengths_by(m, a), lengths_by(m, b));
    verdict_told(
        is_among_either(digits, a.possible_local_length(), b.possible_local_length()),
        is_allowed(digits, first, second),
        is_less_than_all(digits, first, second),
        is_more_than_all(digits, first, second),
    )
}

/// What a length says that is or isn't among the local ones, allowed, less than each that is
/// listed, and more than each.
fn verdict_told(local: bool, allowed: bool, less: bool, more: bool) -> Validation
    ensures { result ≡ verdict_told local allowed less more }
{
    if local {
        Validation::IsPossibleLocalOnly
    } else if allowed {
        Validation::IsPossible
    } else if less {
        Validation::TooShort
    } else if more {
        Validation::TooLong
    } else {
        Validation::InvalidLength
    }
}

/// Whether a length is among these lengths or those, or both lists are empty.
fn is_allowed(digits: usize, first: &[u16], second: &[u16]) -> bool
    ensures { result ≡ (((length first.now == 0) && (length second.now == 0)) ||
        (is_among digits first.now || is_among digits second.now)) }
{
    first.is_empty() && second.is_empty() || is_among_either(digits, first, second)
}

/// Whether a length is among these lengths or those.
fn is_among_either(digits: usize, first: &[u16], second: &[u16]) -> bool
    ensures { result ≡ (is_among digits first.now || is_among digits second.now) }
{
    is_among(digits, first) || is_among(digits, second)
}

/// Whether a length is below each of these and those.
fn is_less_than_all(digits: usize, first: &[u16], second: &[u16]) -> bool
    ensures { result ≡ (list_all (λ l. nat_lt digits l) first.now &&
        list_all (λ l. nat_lt digits l) second.now) }
{
    is_less_than_each(digits, first) && is_less_than_each(digits, second)
}

/// Whether a length is above each of these and those.
fn is_more_than_all(digits: usize, first: &[u16], second: &[u16]) -> bool
    ensures { result ≡ (list_all (λ l. nat_lt l digits) first.now &&
        list_all (λ l. nat_lt l digits) second.now) }
{
    is_more_than_each(digits, first) && is_more_than_each(digits, second)
}

/// The lengths of a descriptor's numbers.
fn lengths_by<'a>(m: &'a Territory, descriptor: &'a Descriptor) -> &'a [u16]
    ensures { result.now ≡ lengths_by m.entry.now descriptor.entry.now }
{
    let lengths = descriptor.possible_length();
    if lengths.is_empty() {
        m.descriptors().general().possible_length()
    } else {
        lengths
    }
}

/// What a length says by the lengths that are listed and the local ones.
fn verdict_on(lengths: &[u16], local: &[u16], digits: usize) -> Validation
    ensures { result ≡ verdict_on lengths.now local.now digits }
{
    verdict_told(
        is_among(digits, local),
        lengths.is_empty() || is_among(digits, lengths),
        is_less_than_each(digits, lengths),
        is_more_than_each(digits, lengths),
    )
}

/// Whether a length is among these.
fn is_among(digits: usize, lengths: &[u16]) -> bool
    ensures { result ≡ is_among digits lengths.now }
{
    lengths.iter().any(|l| usize::from(*l) == digits)
}

/// Whether a length is below each of these.
fn is_less_than_each(digits: usize, lengths: &[u16]) -> bool
    ensures { result ≡ list_all (λ l. nat_lt digits l) lengths.now }
{
    lengths.iter().all(|l| digits < usize::from(*l))
}

/// Whether a length is above each of these.
fn is_more_than_each(digits: usize, lengths: &[u16]) -> bool
    ensures { result ≡ list_all (λ l. nat_lt l digits) lengths.now }
{
    lengths.iter().all(|l| usize::from(*l) < digits)
}
