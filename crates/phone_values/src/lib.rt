//! The values that all other crates speak of: national numbers, calling codes with their source,
//! region ids, extensions and carriers, kinds, verdicts, errors, by whose rules a number is read,
//! and the constants of reading and printing.
#![tactic(auto)]

mod carrier;
pub mod consts;
pub mod country;
pub mod equality;
mod error;
mod extension;
mod kind;
pub mod laws;
mod mode;
mod named;
mod national_number;
mod reading;
mod rules;
pub mod validator;

pub use carrier::Carrier;
pub use error::ParseError;
pub use extension::Extension;
pub use kind::Type;
pub use mode::Mode;
pub use named::KINDS;
pub use national_number::NationalNumber;
pub use reading::Reading;
pub use rules::Rules;
pub use validator::Validation;
