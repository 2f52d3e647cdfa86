//! The records that a database is made of, as `phone_records` has them.
pub use phone_records::loader::{Defaults, Descriptor, Format, Items, Metadata, Text, TryCopy};
