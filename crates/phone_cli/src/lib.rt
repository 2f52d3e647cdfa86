//! What `./phone` does by its words: the call that they are, run on files and devices, with the
//! statuses and the lines that are told of what failed.
#![tactic(auto)]

mod about;
mod beside;
mod failures;
mod found;
mod made;
mod names;
mod objects;
mod operands;
mod outlet;
mod say;
mod summing;
mod tool;
mod written;

pub use outlet::{Input, Meter, Outlet, Output};
pub use phone_encodings::{Ahead, Inlet};
pub use tool::program;
