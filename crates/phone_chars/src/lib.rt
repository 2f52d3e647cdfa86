//! What the characters of a text are: their classes, where a text is cut between them, the digits
//! that they stand for, and when a text may be a number at all.
#![tactic(auto)]

pub mod chars;
pub mod cuts;
pub mod laws;
mod norm;
mod viable;

pub use viable::{PlusSigns, is_viable};
