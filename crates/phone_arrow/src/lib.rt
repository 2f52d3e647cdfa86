//! Columns in Arrow's layout: texts side by side in bytes, parted by offsets, of which a bitmap
//! says which are there; and buffers of such columns, put together into one.
#![tactic(auto)]

mod bits;
mod buffers;
mod offsets;
mod texts;

pub use bits::{bitmap, is_set};
pub use buffers::pad;
pub use offsets::wide;
pub use texts::Texts;
