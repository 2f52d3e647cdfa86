//! A territory: what is known of the numbers of a country or region, its patterns compiled once.
#![tactic(auto)]

mod alike;
mod by_kind;
mod descriptor;
mod each;
mod format;
mod lent;
pub mod loader;
mod patterns;
mod prefixes;
pub mod results;
mod territory;
mod territory_id;

pub use by_kind::{ByKind, Four, Given, OfRecord};
pub use descriptor::{Descriptor, Descriptors};
pub use each::{Compile, compile_each};
pub use format::Format;
pub use phone_pattern::{Captured, FirstGroup, Pattern, Subject};
pub use phone_records::LoadMetadata;
pub use territory::{Territory, compile_all};
