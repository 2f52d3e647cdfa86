//! The territories that numbers are read and printed under.
pub use phone_meta::{
    ByteSource, Database, Descriptor, Descriptors, Format, LoadMetadata, Metadata, Steps, loader,
};
