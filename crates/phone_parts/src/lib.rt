//! The parts of a number in a text: its `tel:` form after RFC 3966, and free text.
#![tactic(auto)]

mod fronts;
pub mod helper;
mod indicators;
pub mod laws;
pub mod natural;
mod number;
mod parameters;
pub mod printed;
pub mod printed_international;
mod readers;
pub mod rfc3966;
pub mod sets;
mod suffix;
mod tails;
mod worked;

pub use number::Number;
pub use readers::parts;
pub use tails::before_run;
