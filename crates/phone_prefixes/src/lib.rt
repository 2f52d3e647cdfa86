//! Tables of prefixes: each entry a prefix of E.164 digits with a text, and of the entries the one
//! whose prefix is the longest that begins a number's digits.
#![tactic(auto)]

mod fault;
mod lines;
mod loading;
mod node;
mod prefixes;
mod span;
mod trie;

pub use fault::{LineFault, PrefixesError};
pub use phone_index::Steps;
pub use prefixes::Prefixes;
