//! A contact list without repeated numbers: of the numbers of one calling code, one national number
//! and one extension it keeps the first.
#![tactic(auto)]

mod answers;
mod book;
mod iter;
mod key;
pub mod laws;
mod worked;

pub use answers::{BookError, BookNewError, Place};
pub use book::Book;
pub use iter::Iter;
pub use key::key_text;
