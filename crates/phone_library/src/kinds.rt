//! What kind of number digits are in a territory.
ghost use Rattle.std.specs.Prelude.{◌≡◌, IfOk};
ghost use Rattle.std.specs.List.{find};
ghost use Rattle.std.specs.Option.{option_copied};
ghost use Rattle.phone_read.specs.Kinds.{is_known};
ghost use Rattle.phone_library.specs.Kinds.{is_number_of, kind_in, line_or_mobile, matches_whole};
ghost use Rattle.phone_territory.specs.Kinds.{descriptor_for};

use phone_read::kinds::TRIED;
use phone_territory::{Descriptor, Descriptors, Subject, Territory};
use phone_values::Type;
use std::alloc::AllocError;

/// What kind of number digits are in a territory, leading zeros included: the first kind whose
/// descriptor allows their count and matches all of them, in the order premium rate, toll free,
/// shared cost, voip, personal number, pager, uan, voicemail, fixed line, mobile. A fixed line is
/// `FixedLineOrMobile` where the mobile descriptor has the digits too. `Unknown` where no kind has
/// them, or the general descriptor doesn't. Refused only for memory.
pub fn kind_in(m: &Territory, digits: &str) -> Result<Type, AllocError>
    ensures { IfOk result (λ kind. kind ≡ kind_in m.now digits.now) }
{
    kind_of_digits(m, &Subject::of(digits))
}

/// The same of digits of which it is known whether they are of ASCII.
pub(crate) fn kind_of_digits(m: &Territory, digits: &Subject<'_>) -> Result<Type, AllocError>
    ensures { IfOk result (λ kind. kind ≡ kind_in m.now digits.now) }
{
    let kinds = m.descriptors();
    if !has_digits(kinds.general(), digits)? {
        return Ok(Type::Unknown);
    }
    match first_kind(kinds, &TRIED, digits)? {
        Some(kind) => line_or_mobile(m, digits, kind),
        None => Ok(Type::Unknown),
    }
}

/// The first of these kinds whose descriptor has the digits.
fn first_kind(
    kinds: &Descriptors,
    tried: &[Type],
    digits: &Subject<'_>,
) -> Result<Option<Type>, AllocError>
    ensures { IfOk result (λ kind. kind ≡
        find (λ k. is_number_of (descriptor_for k kinds.now) digits.now) tried.now) }
{
    for kind in tried {
        if is_number_of(kinds.get(*kind), digits)? {
            return Ok(Some(*kind));
        }
    }
    Ok(None)
}

/// The kind, where a fixed line may as well be a mobile.
fn line_or_mobile(m: &Territory, digits: &Subject<'_>, kind: Type) -> Result<Type, AllocError>
    ensures { IfOk result (λ k. k ≡ line_or_mobile m.now digits.now kind) }
{
    let Type::FixedLine = kind else {
        return Ok(kind);
    };
    if is_number_of(m.descriptors().mobile(), digits)? {
        Ok(Type::FixedLineOrMobile)
    } else {
        Ok(Type::FixedLine)
    }
}

/// Whether a descriptor is there and has the digits.
fn is_number_of(descriptor: Option<&Descriptor>, digits: &Subject<'_>) -> Result<bool, AllocError>
    ensures { IfOk result (λ b. b ≡ is_number_of (option_copied descriptor.entry) digits.now) }
{
    match descriptor {
        Some(descriptor) => has_digits(descriptor, digits),
        None => Ok(false),
    }
}

/// Whether a descriptor allows the count of the digits, and its pattern matches all of them. Most
/// descriptors that are asked refuse the count or the front of the digits, which is the least dear.
fn has_digits(descriptor: &Descriptor, digits: &Subject<'_>) -> Result<bool, AllocError>
    ensures { IfOk result (λ b. b ≡ is_number_of (Some descriptor.now) digits.now) }
{
    if !descriptor.allows_length(digits.as_str().len()) {
        return Ok(false);
    }
    descriptor.pattern().is_whole_match_in(digits)
}

/// Whether the general pattern of a territory matches all of the digits.
pub(crate) fn matches_general(m: &Territory, digits: &str) -> Result<bool, AllocError>
    ensures { IfOk result (λ b. b ≡ matches_whole m.now.general digits.now) }
{
    m.descriptors().general().pattern().is_whole_match(digits)
}

/// Whether a kind is known.
pub(crate) fn is_known(kind: Type) -> bool
    ensures { result ≡ is_known kind }
{
    !matches!(kind, Type::Unknown)
}
