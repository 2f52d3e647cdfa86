//! The four ways to print a number.

/// How a number is printed.
#[derive(Clone, Copy, PartialEq, Eq, Debug)]
pub enum Mode {
    /// A plus sign, the calling code and the digits, as `+6433316005`: the form of ITU's
    /// recommendation E.164.
    E164,

    /// A plus sign, the calling code, a space and the digits in groups, as `+64 3 331 6005`.
    International,

    /// The digits in groups, as they are written within the territory, as `03 331 6005`.
    National,

    /// The form of a `tel:` link, as `tel:+64-3-331-6005`.
    Rfc3966,
}
