//! Sources whose bytes are texts of other encodings than UTF-8, read as UTF-8.
#![tactic(auto)]

mod ahead;
mod chars;
mod decoded;
mod encoding;
mod waiting;

pub use ahead::{Ahead, Inlet};
pub use decoded::Decoded;
pub use encoding::{Encoding, Order};
