//! The parts of a number that is keyed in: what stands in front of the national digits, and the
//! layouts that may show these.
#![tactic(auto)]

mod laid;
mod layouts;
mod leading;
mod line;
mod parting;
mod templates;

pub use laid::Laid;
pub use layouts::{complete, joined};
pub use line::Line;
pub use parting::sign_end;
