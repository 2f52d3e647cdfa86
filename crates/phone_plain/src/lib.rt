//! Patterns that are plain: of digits, classes of digits, groups, branches and counts. One pass
//! over the text of such a pattern gives the tree by which it matches texts of ASCII.
#![tactic(auto)]

mod atoms;
mod bounds;
mod class;
mod cursor;
mod reading;
mod size;
mod trees;
mod whole;

pub use whole::{PlainPattern, plain};
