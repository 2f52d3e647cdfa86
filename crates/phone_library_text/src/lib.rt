//! How a phone number is written in a text, as libphonenumber reads it: where it stands, whether it
//! begins with a plus sign, its digits, and its extension.
#![tactic(auto)]

mod announcement;
mod contexts;
mod ends;
mod extension;
mod families;
mod labels;
pub mod laws;
mod letters;
mod number_text;
mod places;
mod plain;
mod sets;
mod viable;
mod written;

pub use letters::{digit_values, value_of};
pub use viable::{is_viable, split_extension};
pub use written::{WrittenNumber, read_written};
