//! Texts and lists as records hold them, why a database is refused, and results of several steps:
//! what the patterns of a database stand on, without its records.
#![tactic(auto)]

pub mod error;
pub mod fault;
mod forms;
pub mod items;
pub mod results;
pub mod text;

pub use error::LoadMetadata;
pub use fault::MetadataError;
pub use items::{Items, TryCopy};
pub use text::Text;
