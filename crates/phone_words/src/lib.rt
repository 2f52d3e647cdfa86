//! The words of a call of `./phone`, read by the table of its options as what is asked for.
#![tactic(auto)]

mod call;
mod command;
pub mod laws;
mod options;
mod parts;
mod rows;
mod table;
mod usage;
mod values;

pub use call::{Call, call_of};
pub use command::Command;
pub use parts::{Why, WordError};
pub use rows::value_word;
pub use table::{Further, Table};
pub use usage::help;
pub use values::{Form, Level};
