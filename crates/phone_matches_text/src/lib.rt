//! Where a number may stand in a text, by the characters alone, as libphonenumber looks for it: the
//! candidates, what keeps them from being numbers, and the pieces of them that are tried.
#![tactic(auto)]

mod brackets;
mod candidates;
mod cuts;
mod dates;
mod extension;
pub mod laws;
mod neighbours;
mod pieces;
mod sets;
mod shapes;

pub use brackets::{has_good_brackets, has_pages};
pub use candidates::first_candidate;
pub use cuts::behind;
pub use dates::is_dated;
pub use neighbours::stands_free;
pub use pieces::{Piece, pieces_of};
