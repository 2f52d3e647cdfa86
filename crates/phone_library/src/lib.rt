//! The second reading: from a text to a number by libphonenumber's rules, and what a database tells
//! of a number by them.
#![tactic(auto)]

mod codes;
mod homes;
mod kinds;
mod lengths;
mod parser;
mod printing;
mod queries;
mod reading;
mod stripping;

pub use kinds::kind_in;
pub use lengths::length_in;
pub use parser::{parse, parse_written};
pub use printing::{printed, printed_texts, push_printed_texts, without_carrier};
pub use queries::{NumberFacts, facts, is_valid, number_type, region};
pub use reading::national_number;
