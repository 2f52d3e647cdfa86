//! The printed texts of a number, by a territory.
#![tactic(auto)]

mod appending;
pub mod hyphens;
mod printable;
pub mod printing;
pub mod written;

pub use printable::Printable;
pub use printing::Texts;
