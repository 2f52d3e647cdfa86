//! Which kinds of numbers the tables tell of.
ghost use Rattle.std.specs.Prelude.{◌≡◌};
ghost use Rattle.phone_places.specs.Maps.{has_carrier, is_geographical};

use phone_values::Type;

/// Whether numbers of this kind belong to a place in their country: numbers of fixed lines, those
/// that may be of one, and mobile numbers of the calling codes whose mobile numbers do.
pub fn is_geographical(kind: Type, code: u16) -> bool
    ensures { result ≡ is_geographical kind code }
{
    match kind {
        Type::FixedLine | Type::FixedLineOrMobile => true,
        Type::Mobile => matches!(code, 52 | 54 | 55 | 62 | 86),
        _ => false,
    }
}

/// Whether numbers of this kind have a mobile carrier: mobile numbers, those that may be, and
/// pagers'.
pub fn has_carrier(kind: Type) -> bool
    ensures { result ≡ has_carrier kind }
{
    matches!(kind, Type::Mobile | Type::FixedLineOrMobile | Type::Pager)
}
