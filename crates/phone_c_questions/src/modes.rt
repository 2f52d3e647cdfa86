//! A mode by its number.
ghost use Rattle.std.specs.Prelude.{◌≡◌, ◌<◌, IfNone, IfSome};
ghost use Rattle.phone_c_base.specs.Answers.{mode_number};

use phone_values::Mode;

/// A mode, of its number; none for others than these four.
pub(crate) fn mode_of(number: u32) -> Option<Mode>
    ensures found { IfSome result (λ m. mode_number m ≡ number) }
    ensures none { IfNone result (3 < number) }
{
    match number {
        0 => Some(Mode::E164),
        1 => Some(Mode::International),
        2 => Some(Mode::National),
        3 => Some(Mode::Rfc3966),
        _ => None,
    }
}
