//! What holds of libphonenumber's rules, and of numbers, printed or shown while they are typed,
//! that are read by them. The functions of this crate do nothing; their contracts are the
//! statements.
#![tactic(auto)]

pub mod again;
pub mod agreement;
pub mod facts;
pub mod international;
pub mod keys;
pub mod national;
pub mod reach;
pub mod readings;
pub mod rfc3966;
pub mod told;
pub mod twice;
pub mod typed;
