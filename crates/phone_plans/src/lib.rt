//! A database: its territories in their order, read from records or from text, and looked up by id
//! and calling code.
#![tactic(auto)]

mod index;
mod iter;
mod of_code;
mod plans;

pub use iter::Iter;
pub use of_code::{Placed, WithLast, WithLasts};
pub use phone_device::ByteSource;
pub use phone_index::Steps;
pub use phone_territory::{
    Captured, Descriptor, Descriptors, FirstGroup, Format, LoadMetadata, Pattern, Territory, loader,
};
pub use plans::Plans;
