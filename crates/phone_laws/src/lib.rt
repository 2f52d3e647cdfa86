//! Laws of libphonenumber's further questions, of how a number is dialled, of examples, of our own
//! answers where libphonenumber's mislead, and of formatted numbers found in a running text. These
//! functions do nothing; their contracts are the statements.
#![tactic(auto)]

pub mod dialling;
pub mod examples;
pub mod own;
pub mod printed;
pub mod questions;
