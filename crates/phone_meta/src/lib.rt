//! The table whose patterns are compiled where it is made, so that each part lends its `Regex`. It
//! stands on the light table of `phone_plans`, which it also is.
#![tactic(auto)]

mod database;
mod descriptor;
mod format;
mod index;
mod iter;
pub mod laws;
mod metadata;
mod patterns;
mod tree;

pub use database::Database;
pub use descriptor::{Descriptor, Descriptors};
pub use format::Format;
pub use iter::Iter;
pub use metadata::Metadata;
pub use phone_device::ByteSource;
pub use phone_plans::{Plans, Steps};
pub use phone_territory::{LoadMetadata, loader};
