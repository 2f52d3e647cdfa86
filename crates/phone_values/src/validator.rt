//! What the length of a number says about it.
ghost use Rattle.std.specs.Prelude.{◌≡◌};
ghost use Rattle.phone_values.specs.Validations.{is_possible, is_invalid, is_invalid_length};

/// The verdict on a number's length.
#[derive(Clone, Copy, PartialEq, Eq, Debug)]
pub enum Validation {
    /// Numbers of the territory have this length: it is listed for numbers of any kind.
    IsPossible,

    /// Numbers of this kind have this length where they are dialled within their area.
    IsPossibleLocalOnly,

    /// The calling code is listed nowhere. No call gives it.
    InvalidCountryCode,

    /// The number is shorter than the first length that the territory lists.
    TooShort,

    /// Neither too short nor too long, and not listed; or no length is listed, be it of the
    /// territory or of the kind.
    InvalidLength,

    /// The number is longer than the last length that the territory lists.
    TooLong,
}

impl Validation {
    /// Whether a number of this length can be dialled, be it only within its area.
    pub fn is_possible(&self) -> bool
        ensures { result ≡ is_possible self.now }
    {
        matches!(
            self,
            Validation::IsPossible | Validation::IsPossibleLocalOnly
        )
    }

    /// Whether the verdict is against the number: an unknown calling code, or a length that is
    /// invalid.
    pub fn is_invalid(&self) -> bool
        ensures { result ≡ is_invalid self.now }
    {
        matches!(self, Validation::InvalidCountryCode) || self.is_invalid_length()
    }

    /// Whether the length is too short, too long, or another one that is not possible.
    pub fn is_invalid_length(&self) -> bool
        ensures { result ≡ is_invalid_length self.now }
    {
        matches!(
            self,
            Validation::TooShort | Validation::InvalidLength | Validation::TooLong
        )
    }
}
