//! Whether records are the same. Where it is answered that they are, it is certain.
ghost use Rattle.std.specs.Prelude.{◌≡◌, IsTrue};

use crate::loader::{Format, Text};

/// What can be compared with another of its kind.
pub(crate) trait Alike {
    /// Whether both are certainly the same.
    fn is_same(&self, other: &Self) -> bool
        ensures { IsTrue result → self.now ≡ other.now };
}

impl Alike for Text {
    fn is_same(&self, other: &Text) -> bool {
        self.as_str() == other.as_str()
    }
}

impl<T: Alike> Alike for Option<T> {
    fn is_same(&self, other: &Option<T>) -> bool {
        match (self, other) {
            (Some(value), Some(other)) => value.is_same(other),
            (None, None) => true,
            _ => false,
        }
    }
}

impl Alike for Format {
    fn is_same(&self, other: &Format) -> bool {
        let led = self.leading_digits.as_slice();
        let rule = &self.national_prefix_formatting_rule;
        let optional = self.national_prefix_optional_when_formatting;
        optional == other.national_prefix_optional_when_formatting
            && self.pattern.is_same(&other.pattern)
            && self.format.is_same(&other.format)
            && are_same(led, other.leading_digits.as_slice())
            && rule.is_same(&other.national_prefix_formatting_rule)
            && self.domestic_carrier.is_same(&other.domestic_carrier)
    }
}

/// Whether both lists certainly have the same items in the same order.
pub(crate) fn are_same<T: Alike>(items: &[T], others: &[T]) -> bool
    ensures { IsTrue result → items.now ≡ others.now }
{
    let mut rest = others;
    for item in items {
        let Some((first, behind)) = rest.split_first() else {
            return false;
        };
        if !item.is_same(first) {
            return false;
        }
        rest = behind;
    }
    rest.is_empty()
}
