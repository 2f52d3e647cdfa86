//! One engine for all that is asked of texts and numbers: a table, by whose rules, and the region
//! under which texts are read. It reads a text as a phone number, tells what a number is, prints
//! it, and reports on lines. The rules are those of libphonenumber, or those of the crate that
//! `phonenumber` is a port of; each contract takes them as a parameter of its definition.
//!
//! It also answers what users ask next: whether a number is possible, which regions a database has,
//! what an example number is, whether two texts are the same number, and how a region dials a
//! number.
#![tactic(auto)]

pub mod dialled;
mod engine;
mod facts;
pub mod laws;
mod line;
mod listed;
mod number;
mod possibilities;
mod printing;
pub mod question_laws;
mod sameness;
mod sides;
pub mod tool;
pub mod words;
mod worked;

pub use engine::Engine;
pub use listed::{codes, example, regions};
pub use phone_device::{ByteSink, ByteSource};
pub use phone_lines::RunError;
pub use phone_values::Rules;
pub use possibilities::{Possibility, possibility_of, possibility_of_text};
pub use sameness::{Sameness, compare_texts, sameness_of};
pub use sides::{Side, taken_as};
