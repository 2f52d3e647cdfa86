//! The numbers of a running text as libphonenumber finds them: candidates and pieces of them that
//! are read as possible or valid numbers, have the national prefix that their layout writes, and
//! stand perhaps in the groups of digits in which such numbers are laid out: one behind the other,
//! or as the runs of digits. The search takes any judge: candidate by candidate, each whole or in
//! pieces, with a limit of tries.
#![tactic(auto)]

mod exact;
mod groupings;
mod judge;
pub mod laws;
mod layouts;
mod leniency;
mod marks;
mod numbers;
mod places;
mod prefixes;
mod runs;
mod search;
mod slashes;
mod strict;
mod test;
mod texts;
mod tries;

pub use groupings::{Strictness, is_grouped};
pub use judge::Judge;
pub use leniency::Leniency;
pub use numbers::{find_matches, find_matches_by, find_matches_within};
pub use places::Match;
pub use prefixes::{first_fitting, has_prefix};
pub use search::all_matches;
