//! What a pattern's tree finds in texts, asked of an automaton that its owner holds: the first
//! search of it works out its steps, and the next ones only walk them.
#![tactic(auto)]

mod automaton;
mod digits;
mod front_table;
mod fronts;
mod groups;
mod lengths;
mod machine;
mod narrow;
mod parts;
mod place;
mod rows;
mod template;
mod tree;

pub use automaton::Automaton;
pub use digits::are_digits;
pub use front_table::FrontTable;
pub use fronts::Fronts;
pub use lengths::Lengths;
pub use machine::{Captured, Machine};
pub use narrow::narrow_classes;
