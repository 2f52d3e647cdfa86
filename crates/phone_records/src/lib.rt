//! The records that a database is made of, and what they may not lack.
#![tactic(auto)]

pub mod loader;
pub mod missing;

pub use phone_base::{LoadMetadata, error};
