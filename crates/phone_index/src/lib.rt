//! The index of a database: places of territories by id, in an order that is searched by halves,
//! and by calling code, in an order in which it is noted where each code starts; calling codes as a
//! trie of their decimal digits; and the steps that a look-up takes.
#![tactic(auto)]

mod grouped;
mod node;
mod sorted;
mod steps;
mod trie;

pub use grouped::{Coded, Grouped};
pub use sorted::{Named, Sorted};
pub use steps::Steps;
pub use trie::Trie;
