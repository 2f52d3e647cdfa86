//! What a contact book answers.
use phone_values::ParseError;
use thiserror::Error;

/// Where the number of a line stands.
#[derive(Clone, Copy, PartialEq, Eq, Debug)]
pub enum Place {
    /// It was new, and now stands at this place, counted from 0.
    Added(usize),

    /// It stands at this place already, counted from 0, as it was first written.
    Present(usize),
}

/// Why a line added no number and found none.
#[derive(Clone, PartialEq, Eq, Debug, Drop, Error)]
pub enum BookError {
    /// The line is no number; the refusal is never `ParseError::Memory`.
    #[error(transparent)]
    Refused(ParseError),

    /// Memory was refused.
    #[error("out of memory")]
    Memory,
}

/// Why a database can't serve a contact book.
#[derive(Clone, Copy, PartialEq, Eq, Debug, Error)]
pub enum BookNewError {
    /// A listed calling code begins another, so two numbers may have one E.164 text.
    #[error("a listed calling code begins another")]
    Ambiguous,
}
