//! Why a field of a table is suspicious: what a spreadsheet made of a number, a plus sign or a zero
//! that is missing, letters, two numbers in one field, a number of another region.
#![tactic(auto)]

mod answer;
mod dates;
mod doubt;
mod floats;
mod fronts;
pub mod laws;
mod letters;
mod pairs;
mod parted;
mod regions;
mod valid;

pub use answer::{doubts, find_doubts};
pub use doubt::{Doubt, Doubts};
pub use pairs::{parts, two_numbers};
