//! Why a record is no territory.
ghost use Rattle.std.specs.Prelude.{◌≡◌, ◌↔◌, IfOk, IsTrue, string_bytes};
ghost use Rattle.phone_base.specs.Faults.{told};

use std::alloc::AllocError;
use thiserror::Error;

/// What is wrong with a territory's record. `MissingValue` and `UnhandledElement` are given; no
/// call gives the others, which keep the names that the original has for them.
#[derive(PartialEq, Eq, Debug, Drop, Error)]
pub enum MetadataError {
    /// The database text ended too early.
    #[error("unexpected end of file")]
    UnexpectedEof,

    /// A tag was closed that was not open.
    #[error("mismatched tag: {0:?}")]
    MismatchedTag(String),

    /// A record lacks a value that it must have: the record's kind, and the value's name.
    #[error("{phase}: missing value: {name:?}")]
    MissingValue {
        phase: String,
        name: String,
    },

    /// A record has a key that it may not have: the record's kind, and the key.
    #[error("{phase}: unhandled element: {name:?}")]
    UnhandledElement {
        phase: String,
        name: String,
    },

    /// An attribute that no record has.
    #[error("{phase}: unhandled attribute: {name:?}={value:?}")]
    UnhandledAttribute {
        phase: String,
        name: String,
        value: String,
    },

    /// An event that no record has.
    #[error("{phase}: unhandled event: {event:?}")]
    UnhandledEvent {
        phase: String,
        event: String,
    },
}

/// Two texts again; refused only for memory.
fn two(first: &String, second: &String) -> Result<(String, String), AllocError>
    ensures { IfOk result (λ all. (string_bytes all.0 ≡ string_bytes first.now)
        × (string_bytes all.1 ≡ string_bytes second.now)) }
{
    Ok((first.clone()?, second.clone()?))
}

/// Three texts again; refused only for memory.
fn three(
    first: &String,
    second: &String,
    third: &String,
) -> Result<(String, String, String), AllocError>
    ensures { IfOk result (λ all. (string_bytes all.0 ≡ string_bytes first.now)
        × (string_bytes all.1 ≡ string_bytes second.now)
        × (string_bytes all.2 ≡ string_bytes third.now)) }
{
    let (first, second) = two(first, second)?;
    Ok((first, second, third.clone()?))
}

impl MetadataError {
    /// The same error again; refused only for memory.
    pub fn clone(&self) -> Result<MetadataError, AllocError>
        ensures { IfOk result (λ e. told e ≡ told self.now) }
    {
        match self {
            MetadataError::UnexpectedEof => Ok(MetadataError::UnexpectedEof),
            MetadataError::MismatchedTag(tag) => Ok(MetadataError::MismatchedTag(tag.clone()?)),
            MetadataError::MissingValue { phase, name } => {
                let (phase, name) = two(phase, name)?;
                Ok(MetadataError::MissingValue { phase, name })
            }
            MetadataError::UnhandledElement { phase, name } => {
                let (phase, name) = two(phase, name)?;
                Ok(MetadataError::UnhandledElement { phase, name })
            }
            MetadataError::UnhandledAttribute { phase, name, value } => {
                let (phase, name, value) = three(phase, name, value)?;
                Ok(MetadataError::UnhandledAttribute { phase, name, value })
            }
            MetadataError::UnhandledEvent { phase, event } => {
                let (phase, event) = two(phase, event)?;
                Ok(MetadataError::UnhandledEvent { phase, event })
            }
        }
    }
}

/// Whether two errors of territories' records are equal: whether they are of one kind and have the
/// same texts.
pub fn equal_record_errors(a: &MetadataError, b: &MetadataError) -> bool
    ensures { IsTrue result ↔ (told a.now ≡ told b.now) }
{
    a == b
}
