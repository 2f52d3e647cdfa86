//! Rules that C gives by their number.
ghost use Rattle.std.specs.Prelude.{◌≡◌, ◌<◌, IfNone, IfSome};
ghost use Rattle.phone_c_base.specs.Rules.{rules_number};

use phone_engine::Rules;

/// The rules that have this number; none for others than these two.
pub fn rules_of(number: u32) -> Option<Rules>
    ensures found { IfSome result (λ rules. number ≡ rules_number rules) }
    ensures none { IfNone result (1 < number) }
{
    match number {
        0 => Some(Rules::Library),
        1 => Some(Rules::Crate),
        _ => None,
    }
}
