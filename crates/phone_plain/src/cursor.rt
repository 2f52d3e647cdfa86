//! A place in the text of a pattern, and why reading stops there.
ghost use Rattle.std.specs.Prelude.{◌≡◌, ◌≤◌, [], ◌∷◌, ◌++◌, MatchOption, IfSome, IfOk, IsTrue};
ghost use Rattle.phone_plain.specs.Bytes.{is_digit};

use std::alloc::AllocError;

/// Where reading stands: what is left of the text, and how many groups were opened before.
#[derive(Clone, Copy)]
pub(crate) struct Cursor<'a> {
    pub(crate) rest: &'a [u8],
    pub(crate) groups: u32,
}

/// Why no tree is read.
#[derive(Drop)]
pub(crate) enum Stop {
    /// The pattern is not plain.
    NotPlain,
    /// Memory is refused.
    Memory,
}

impl From<AllocError> for Stop {
    ghost use Rattle.std.specs.Prelude.{◌≡◌};
    ghost use Rattle.phone_plain.specs.declared.cursor.Stop.TheVariants as stop;

    ghost from_gives = { λ _ s. s ≡ stop.Memory };

    fn from(_refusal: AllocError) -> Stop {
        Stop::Memory
    }
}

/// The first byte, and what follows it.
#[inline]
pub(crate) fn peel(text: &[u8]) -> Option<(u8, &[u8])>
    ensures { MatchOption result (text.now ≡ []) (λ p. text.now ≡ p.0 ∷ p.1.now) }
{
    match text {
        [] => None,
        [first, rest @ ..] => Some((*first, rest)),
    }
}

/// What follows this byte at the front. Refused where another byte or none is there.
#[inline]
pub(crate) fn behind(text: &[u8], byte: u8) -> Result<&[u8], Stop>
    ensures { IfOk result (λ rest. text.now ≡ byte ∷ rest.now) }
{
    match peel(text) {
        Some((first, rest)) if first == byte => Ok(rest),
        _ => Err(Stop::NotPlain),
    }
}

/// Whether this is a digit.
#[inline]
pub(crate) fn is_digit(byte: u8) -> bool
    ensures { result ≡ is_digit byte }
{
    b'0' <= byte && byte <= b'9'
}

/// A digit at the front, and what follows it. Refused where none is there.
#[inline]
pub(crate) fn digit(text: &[u8]) -> Result<(u8, &[u8]), Stop>
    ensures is { IfOk result (λ p. text.now ≡ p.0 ∷ p.1.now) }
    ensures low { IfOk result (λ p. 48 ≤ p.0) }
    ensures high { IfOk result (λ p. p.0 ≤ 57) }
{
    match peel(text) {
        Some((first, rest)) if is_digit(first) => Ok((first, rest)),
        _ => Err(Stop::NotPlain),
    }
}

/// Adds to a list. Refused only for memory.
pub(crate) fn add<T: Drop>(list: &mut Vec<T>, thing: T) -> Result<(), AllocError>
    ensures { IfOk result (λ _. list.new.items ≡ list.old.items ++ thing ∷ []) }
{
    list.push(thing)?;
    Ok(())
}
