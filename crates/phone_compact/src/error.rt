//! Why bytes were not read as records.
use std::alloc::{AllocError, AllocFailed};
use thiserror::Error;

/// Why there are no records.
#[derive(Clone, Copy, PartialEq, Eq, Debug, Error)]
pub enum NotRead {
    /// No records are written as these bytes.
    #[error("no compact form of records")]
    Malformed,
    /// Memory was refused.
    #[error("out of memory")]
    Memory,
}

impl From<AllocError> for NotRead {
    ghost use Rattle.std.specs.Prelude.{◌≡◌};
    ghost use Rattle.phone_compact.specs.declared.error.NotRead.TheVariants as error;

    ghost from_gives = { λ _ e. e ≡ error.Memory };

    fn from(_: AllocError) -> NotRead {
        NotRead::Memory
    }
}

impl<T: Drop> From<AllocFailed<T>> for NotRead {
    ghost use Rattle.std.specs.Prelude.{◌≡◌};
    ghost use Rattle.phone_compact.specs.declared.error.NotRead.TheVariants as error;

    ghost from_gives = { λ _ e. e ≡ error.Memory };

    fn from(_: AllocFailed<T>) -> NotRead {
        NotRead::Memory
    }
}
