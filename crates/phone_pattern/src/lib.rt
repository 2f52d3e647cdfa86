//! Patterns of digits, read once, kept with what searches them, and shared by their texts; and the
//! formatting rules that change the template of a match.
#![tactic(auto)]

mod compiled;
mod intern_table;
mod leading;
mod outline;
mod pattern;
mod plan;
mod pool;
mod reading;
mod ruled;
mod rules;
mod scans;
mod searches;
mod size;
mod subject;
mod subjects;
mod uncached;
mod under_x;

pub use compiled::{Compiled, CompiledList};
pub use leading::Leading;
pub use pattern::{Captured, Pattern};
pub use pool::Pool;
pub use ruled::KeptRuled;
pub use rules::FirstGroup;
pub use subject::Subject;
