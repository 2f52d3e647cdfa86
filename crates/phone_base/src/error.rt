//! Why a list of records is no database.
ghost use Rattle.std.specs.Prelude.{◌≡◌};
ghost use Rattle.phone_base.specs.Errors.{told};

use crate::fault::MetadataError;
use std::alloc::{AllocError, AllocFailed};
use thiserror::Error;

/// Why a database was refused. `Json`, `Kind` and `Metadata(UnhandledElement)` speak of database
/// texts, `Io` of sources and files.
#[derive(Debug, Drop, Error)]
pub enum LoadMetadata {
    /// What is wrong with a record: a value is missing, or a key stands there that it may not have.
    #[error(transparent)]
    Metadata(MetadataError),

    /// The database text is no JSON.
    #[error("malformed JSON")]
    Json,

    /// A value of the database text is of the wrong kind: the record's kind, and the field's name.
    #[error("{phase}: wrong kind: {name:?}")]
    Kind { phase: String, name: String },

    /// This text is no pattern, or compiles to more than 10 MiB.
    #[error("Malformed Regex: {0}")]
    Regex(String),

    /// The file could not be opened or read.
    #[error("I/O error")]
    Io,

    /// Memory was refused.
    #[error("out of memory")]
    Memory,
}

impl LoadMetadata {
    /// Which refusal it is: 1 a missing value, 2 a key that may not stand there, 3 no JSON, 4 a
    /// value of the wrong kind, 5 a pattern that was refused, 6 input or output, 7 memory; 8 for
    /// the other errors of a record, which are never given.
    pub fn number(&self) -> u8
        ensures { result ≡ (told self.now).0 }
    {
        match self {
            LoadMetadata::Metadata(MetadataError::MissingValue { .. }) => 1,
            LoadMetadata::Metadata(MetadataError::UnhandledElement { .. }) => 2,
            LoadMetadata::Metadata(_) => 8,
            LoadMetadata::Json => 3,
            LoadMetadata::Kind { .. } => 4,
            LoadMetadata::Regex(_) => 5,
            LoadMetadata::Io => 6,
            LoadMetadata::Memory => 7,
        }
    }
}

impl From<AllocError> for LoadMetadata {
    ghost use Rattle.std.specs.Prelude.{◌≡◌};
    ghost use Rattle.phone_base.specs.declared.error.LoadMetadata.TheVariants as error;

    ghost from_gives = { λ _ e. e ≡ error.Memory };

    fn from(_: AllocError) -> LoadMetadata {
        LoadMetadata::Memory
    }
}

impl<T: Drop> From<AllocFailed<T>> for LoadMetadata {
    ghost use Rattle.std.specs.Prelude.{◌≡◌};
    ghost use Rattle.phone_base.specs.declared.error.LoadMetadata.TheVariants as error;

    ghost from_gives = { λ _ e. e ≡ error.Memory };

    fn from(_: AllocFailed<T>) -> LoadMetadata {
        LoadMetadata::Memory
    }
}
