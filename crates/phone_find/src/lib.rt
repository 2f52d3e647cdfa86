//! Which numbers stand in a running text, by rules of our own: its pieces that may be a number by
//! their characters and what stands beside them, and of those that are read as a valid or possible
//! one the first and longest ones, which don't overlap. By the characters alone it is told where a
//! number may begin and end, what it is made of, and what looks like one and isn't.
#![tactic(auto)]

mod cuts;
mod dates;
pub mod laws;
mod leniency;
mod numbers;
mod rules;
mod search;
mod sets;
mod signs;
mod standing;
mod walks;

pub use leniency::Leniency;
pub use numbers::{find_numbers, find_numbers_with};
pub use search::{Found, Judge, all_accepted};
pub use standing::{from_too_many, is_plain, is_shaped, may_begin, may_end};
