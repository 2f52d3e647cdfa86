//! The names of `phone_meta` and `phone_plans`: databases.
pub use phone_meta::loader::{
    Defaults, Descriptor as DescriptorRecord, Format as FormatRecord, Metadata as MetadataRecord,
};
pub use phone_meta::{
    Database, Descriptor, Descriptors, Format, Iter, LoadMetadata, Metadata, Steps,
};
pub use phone_plans::Plans;
