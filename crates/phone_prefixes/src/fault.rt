//! Why a text is no table of prefixes.
use phone_device::ReadError;
use std::alloc::AllocError;
use thiserror::Error;

/// What is wrong with a line. Of several the first one here is named.
#[derive(Clone, Copy, PartialEq, Eq, Debug, Error)]
pub enum LineFault {
    /// The line is empty, or a carriage return alone.
    #[error("the line is empty")]
    Empty,

    /// No tab stands in the line.
    #[error("the line has no tab")]
    NoTab,

    /// What stands before the first tab isn't 1 to 15 ASCII digits.
    #[error("the prefix isn't 1 to 15 digits")]
    NoPrefix,

    /// What stands after the first tab isn't UTF-8.
    #[error("the text isn't UTF-8")]
    NotUtf8,

    /// An earlier line has the prefix.
    #[error("the prefix stands in an earlier line")]
    PrefixTwice,
}

/// Why there is no table.
#[derive(Clone, Copy, PartialEq, Eq, Debug, Error)]
pub enum PrefixesError {
    /// The first line that can't be taken, counted from 1, and what is wrong with it.
    #[error("line {0}: {1}")]
    Line(usize, LineFault),

    /// The source failed.
    #[error("I/O error")]
    Source,

    /// Memory was refused, or there are 2^32 - 1 entries, or nodes of the trie.
    #[error("out of memory")]
    Memory,
}

impl From<AllocError> for PrefixesError {
    ghost use Rattle.std.specs.Prelude.{◌≡◌};
    ghost use Rattle.phone_prefixes.specs.declared.fault.PrefixesError.TheVariants as error;

    ghost from_gives = { λ _ e. e ≡ error.Memory };

    fn from(_refusal: AllocError) -> PrefixesError {
        PrefixesError::Memory
    }
}

impl From<ReadError> for PrefixesError {
    ghost use Rattle.std.specs.Prelude.{◌≡◌};
    ghost use Rattle.phone_prefixes.specs.Refusals.{of_read};

    ghost from_gives = { λ refusal e. e ≡ of_read refusal };

    fn from(refusal: ReadError) -> PrefixesError {
        match refusal {
            ReadError::Fault => PrefixesError::Source,
            ReadError::Memory => PrefixesError::Memory,
        }
    }
}
