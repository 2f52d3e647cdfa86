//! The leading digits for which a layout is meant, by how many digits there are.
ghost use Rattle.std.specs.Prelude.{◌≡◌, IfOk};
ghost use Rattle.phone_keyed_parts.specs.Layouts as layout_rules;

use phone_territory::Format;
use std::alloc::AllocError;

/// For how many digits the first leading pattern is meant.
const FEWEST_DIGITS: usize = 3;

/// Whether a layout is meant for these digits, three or more: it names no leading digits, or the
/// pattern of them for so many digits matches in front. Refused only for memory.
pub(crate) fn leads(layout: &Format, digits: &str) -> Result<bool, AllocError>
    ensures { IfOk result (λ b. b ≡ layout_rules.leads digits.now layout.now) }
{
    let n = digits.len().saturating_sub(FEWEST_DIGITS);
    match layout.leading_at(n) {
        Some(pattern) => pattern.is_at_start(digits),
        None => Ok(true),
    }
}
