//! What the length of a number says of it, what kind it is of, and whether it belongs to a
//! territory.
ghost use Rattle.std.specs.Prelude.{◌≡◌, ◌==◌, IfOk, length};
ghost use Rattle.std.specs.Cow.{cow_str_bytes};
ghost use Rattle.std.specs.List.{find, list_any};
ghost use Rattle.std.specs.Option.{option_copied};
ghost use Rattle.phone_territory.specs.Kinds.{descriptor_for};
ghost use Rattle.phone_read.specs.Kinds.{belongs_to, is_known, is_of, is_one_pattern};
ghost use Rattle.phone_read.specs.Kinds.{line_or_mobile, type_of};
ghost use Rattle.phone_read.specs.Verdicts.{last_of, verdict_by, verdict_for};

use phone_parts::Number;
use phone_territory::{Descriptor, Descriptors, Subject, Territory};
use phone_values::{Type, Validation};
use std::alloc::AllocError;

/// The kinds that a number is told to be of, in the order in which they are tried.
pub const TRIED: [Type; 10] = [
    Type::PremiumRate,
    Type::TollFree,
    Type::SharedCost,
    Type::Voip,
    Type::PersonalNumber,
    Type::Pager,
    Type::Uan,
    Type::Voicemail,
    Type::FixedLine,
    Type::Mobile,
];

/// What the length of a number's national part says of it as a number of this kind; `Unknown` is
/// any kind, and `FixedLineOrMobile` counts as a fixed line. The length is in bytes of the part as
/// it stands, and it is weighed by the lengths of numbers of any kind and by the local lengths of
/// the kind. `InvalidLength` where the territory has no lengths, or none of the kind. No memory is
/// taken.
pub fn length(m: &Territory, number: &Number<'_>, kind: Type) -> Validation
    ensures { result ≡ verdict_for m.now kind (length (cow_str_bytes number.now.national)) }
{
    length_of(m, number.national.as_str().len(), kind)
}

/// What a length in bytes says of a number of this kind, as [`length`] has it. No memory is taken.
pub fn length_of(m: &Territory, bytes: usize, kind: Type) -> Validation
    ensures { result ≡ verdict_for m.now kind bytes }
{
    let Some(descriptor) = m.descriptors().get(kind) else {
        return Validation::InvalidLength;
    };
    if descriptor.possible_length().is_empty() {
        return Validation::InvalidLength;
    }
    verdict_by(
        m.descriptors().general().possible_length(),
        descriptor.possible_local_length(),
        bytes,
    )
}

/// What a length says by a list of lengths and a list of local ones.
fn verdict_by(lengths: &[u16], local: &[u16], bytes: usize) -> Validation
    ensures { result ≡ verdict_by lengths.now local.now bytes }
{
    let Some((least, more)) = lengths.split_first() else {
        return Validation::InvalidLength;
    };
    let least = usize::from(*least);
    if has_length(local, bytes) {
        return Validation::IsPossibleLocalOnly;
    }
    if bytes == least {
        return Validation::IsPossible;
    }
    if bytes < least {
        return Validation::TooShort;
    }
    if bytes > last_of(least, more) {
        return Validation::TooLong;
    }
    if has_length(more, bytes) {
        return Validation::IsPossible;
    }
    Validation::InvalidLength
}

/// The last of the lengths; `least` where there is none.
fn last_of(least: usize, lengths: &[u16]) -> usize
    ensures { result ≡ last_of least lengths.now }
{
    match lengths.last() {
        Some(last) => usize::from(*last),
        None => least,
    }
}

fn has_length(lengths: &[u16], bytes: usize) -> bool
    ensures { result ≡ list_any (λ l. l == bytes) lengths.now }
{
    lengths.iter().any(|l| usize::from(*l) == bytes)
}

/// What kind of number a text of digits is in a territory: the first kind whose descriptor matches,
/// in the order premium rate, toll free, shared cost, voip, personal number, pager, uan, voicemail,
/// fixed line, mobile. A fixed line is `FixedLineOrMobile` where both have one pattern or the
/// mobile descriptor matches too. `Unknown` where no kind matches, or the general descriptor
/// doesn't. Refused only for memory.
pub fn number_type(m: &Territory, text: &str) -> Result<Type, AllocError>
    ensures { IfOk result (λ k. k ≡ type_of m.now text.now) }
{
    number_type_in(m, &Subject::of(text))
}

/// The same of a text of which it is known whether it is of digits.
pub fn number_type_in(m: &Territory, text: &Subject<'_>) -> Result<Type, AllocError>
    ensures { IfOk result (λ k. k ≡ type_of m.now text.now) }
{
    let kinds = m.descriptors();
    if !kinds.general().is_match_in(text)? {
        return Ok(Type::Unknown);
    }
    match first_kind(kinds, &TRIED, text)? {
        Some(kind) => line_or_mobile(m, text, kind),
        None => Ok(Type::Unknown),
    }
}

/// The first of these kinds whose descriptor is there and matches.
fn first_kind(
    kinds: &Descriptors,
    tried: &[Type],
    text: &Subject<'_>,
) -> Result<Option<Type>, AllocError>
    ensures { IfOk result (λ k. k ≡
        find (λ k. is_of (descriptor_for k kinds.now) text.now) tried.now) }
{
    for kind in tried {
        if is_of(kinds.get(*kind), text)? {
            return Ok(Some(*kind));
        }
    }
    Ok(None)
}

/// Whether the digits are of the territory's general kind: its general descriptor lists their
/// length in bytes, or none, and the pattern's first match begins at their front. Refused only for
/// memory.
pub fn is_general(m: &Territory, digits: &str) -> Result<bool, AllocError>
    ensures { IfOk result (λ b. b ≡ is_of m.now.general digits.now) }
{
    m.descriptors().general().is_match(digits)
}

/// Whether a descriptor is there and matches.
fn is_of(descriptor: Option<&Descriptor>, text: &Subject<'_>) -> Result<bool, AllocError>
    ensures { IfOk result (λ b. b ≡ is_of (option_copied descriptor.entry) text.now) }
{
    match descriptor {
        Some(descriptor) => descriptor.is_match_in(text),
        None => Ok(false),
    }
}

/// The kind of a number, where a fixed line may as well be a mobile.
fn line_or_mobile(m: &Territory, text: &Subject<'_>, kind: Type) -> Result<Type, AllocError>
    ensures { IfOk result (λ k. k ≡ line_or_mobile m.now text.now kind) }
{
    let Type::FixedLine = kind else {
        return Ok(kind);
    };
    let kinds = m.descriptors();
    if is_one_pattern(kinds.fixed_line(), kinds.mobile()) || is_of(kinds.mobile(), text)? {
        return Ok(Type::FixedLineOrMobile);
    }
    Ok(Type::FixedLine)
}

/// Whether both descriptors are there and have one pattern.
fn is_one_pattern(line: Option<&Descriptor>, mobile: Option<&Descriptor>) -> bool
    ensures { result ≡ is_one_pattern (option_copied line.entry) (option_copied mobile.entry) }
{
    match (line, mobile) {
        (Some(line), Some(mobile)) => line.pattern_text() == mobile.pattern_text(),
        _ => false,
    }
}

/// Whether the number belongs to a territory.
pub fn belongs_to(text: &str, m: &Territory) -> Result<bool, AllocError>
    ensures { IfOk result (λ b. b ≡ belongs_to text.now m.now) }
{
    match m.leading_digits_pattern() {
        Some(pattern) => pattern.is_at_start(text),
        None => Ok(is_known(number_type(m, text)?)),
    }
}

/// Whether a kind is known.
fn is_known(kind: Type) -> bool
    ensures { result ≡ is_known kind }
{
    !matches!(kind, Type::Unknown)
}
