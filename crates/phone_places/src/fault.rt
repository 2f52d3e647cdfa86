//! Why bytes are no table of names.
use std::alloc::AllocError;
use thiserror::Error;

/// What is wrong with a line. Of several the first one here is named.
#[derive(Clone, Copy, PartialEq, Eq, Debug, Error)]
pub enum LineFault {
    /// No line feed ends the line.
    #[error("the line has no end")]
    NoEnd,

    /// No tab stands in the line.
    #[error("the line has no tab")]
    NoTab,

    /// What stands after the first tab isn't the id of a region, in capital letters.
    #[error("what stands after the tab is no region's id")]
    NoId,

    /// The name isn't above that of the line before, byte by byte: it is there twice, or the lines
    /// are out of order.
    #[error("the name isn't above the one before it")]
    NotAbove,
}

/// Why there is no table.
#[derive(Clone, Copy, PartialEq, Eq, Debug, Error)]
pub enum CountriesError {
    /// The bytes aren't UTF-8.
    #[error("the table isn't UTF-8")]
    NotUtf8,

    /// The first line that can't be taken, counted from 1, and what is wrong with it.
    #[error("line {0}: {1}")]
    Line(usize, LineFault),

    /// Memory was refused.
    #[error("out of memory")]
    Memory,
}

impl From<AllocError> for CountriesError {
    ghost use Rattle.std.specs.Prelude.{◌≡◌};
    ghost use Rattle.phone_places.specs.declared.fault.CountriesError.TheVariants as error;

    ghost from_gives = { λ _ e. e ≡ error.Memory };

    fn from(_refusal: AllocError) -> CountriesError {
        CountriesError::Memory
    }
}
