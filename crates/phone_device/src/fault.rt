//! What a failed call of a device answers.

/// A read, a write or a flush that failed. It says nothing of the cause.
#[derive(Clone, Copy, PartialEq, Eq, Debug)]
pub struct Fault;
