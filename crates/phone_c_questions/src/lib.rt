//! libphonenumber's further questions for C: of regions and calling codes, of a number, of how like
//! numbers and texts are, and of what a text is as it is dialled; how numbers are written so that
//! they can be dialled, with the letters in which they were written too, and what they are as short
//! numbers; examples; a number as it is typed; the numbers of a running text; and our own answers
//! where libphonenumber's mislead. `phone_c` has the calls themselves. All of them read texts by
//! libphonenumber's rules, whatever the rules of a handle, and all but our own answer by them.
#![tactic(auto)]

pub mod carriers;
pub mod codes;
pub mod dialling_laws;
pub mod examples;
pub mod formats;
pub mod forms;
pub mod found;
pub mod kind_examples;
pub mod laws;
pub mod layouts;
pub mod letters;
pub mod matches;
mod modes;
pub mod numbers;
pub mod own;
pub mod own_laws;
mod plain;
pub mod regions;
pub mod services;
pub mod short;
pub mod texts;
pub mod truncation;
pub mod typing;
