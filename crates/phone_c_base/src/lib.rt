//! What the calls for C are made of: handles that own databases and tables of prefixes, buffers of
//! the caller's, phone numbers as plain numbers, statuses, and what each call answers of them.
//! `phone_c` has the calls themselves.
#![tactic(auto)]

pub mod asked;
pub mod buffer;
pub mod comparison;
pub mod dialling;
pub mod engines;
pub mod example;
pub mod found;
pub mod handle;
pub mod hint;
pub mod laws;
pub mod listed;
pub mod number;
pub mod opened;
pub mod opening;
pub mod parse;
pub mod possibility;
pub mod prefixes;
pub mod print;
pub mod raw_box;
pub mod report;
pub mod rules;
pub mod shared;
pub mod sharing;
pub mod short;
pub mod status;
pub mod table;
pub mod threads;
pub mod typing;
pub mod words;
