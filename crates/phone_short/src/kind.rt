//! Which texts are short numbers of a region.
ghost use Rattle.std.specs.Prelude.{◌≡◌, ◌&&◌, IfOk, chars};
ghost use Rattle.phone_short.specs.Kinds.{kind_in, kind_name};
ghost use Rattle.phone_short.specs.Numbers as numbers;
ghost use Rattle.phone_short.specs.Texts as texts;

use crate::digits::{digits_in, is_dialled_within};
use crate::emergency::is_emergency_in;
use crate::numbers::is_valid;
use phone_pattern::Subject;
use phone_territory::Territory;
use std::alloc::AllocError;

/// What kind of short number a text is.
#[derive(Clone, Copy, PartialEq, Eq, Debug)]
pub enum ShortKind {
    /// A valid short number that is no emergency number.
    ShortNumber,
    /// An emergency number.
    Emergency,
}

impl ShortKind {
    /// The name of the kind: `ShortNumber` or `Emergency`.
    pub fn as_str(&self) -> &'static str
        ensures { result.now ≡ kind_name self.now }
    {
        match self {
            ShortKind::ShortNumber => "ShortNumber",
            ShortKind::Emergency => "Emergency",
        }
    }
}

/// The kind of a text: an emergency number, before all else; or a text that is dialled within the
/// region and whose digits are valid; or none. Refused only for memory.
pub(crate) fn kind_in(m: &Territory, text: &str) -> Result<Option<ShortKind>, AllocError>
    ensures { IfOk result (λ kind. kind ≡ kind_in m.now (chars text.now)) }
{
    if is_emergency_in(m, text)? {
        return Ok(Some(ShortKind::Emergency));
    }
    if is_valid_within(m, text)? {
        return Ok(Some(ShortKind::ShortNumber));
    }
    Ok(None)
}

/// Whether a text is dialled within the region, and its digits are valid. Refused only for memory.
fn is_valid_within(m: &Territory, text: &str) -> Result<bool, AllocError>
    ensures { IfOk result (λ b. b ≡ (texts.is_dialled_within (chars text.now) &&
        numbers.is_valid m.now (texts.digits_in (chars text.now)))) }
{
    if !is_dialled_within(text) {
        return Ok(false);
    }
    let digits = digits_in(m.allocator(), text)?;
    is_valid(m, &Subject::of(digits.as_str()))
}
