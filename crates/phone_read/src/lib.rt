//! Reading: from a text to calling code, national number, extension and carrier; and which region a
//! number belongs to. With the rules of a territory on a number: plus signs and international
//! prefixes in front of it, the national prefix and a carrier's code, whether its length is
//! possible, what kind it is of, and whether it belongs to the territory.
#![tactic(auto)]

mod belonging;
mod calling_code;
pub mod dialled;
pub mod helper;
mod hints;
pub mod kinds;
pub mod laws;
pub mod number_laws;
mod reading;
pub mod stripping;
pub mod trims;
pub mod validator;
mod worked;

pub use hints::hint_territory;
pub use phone_parts::{Number, natural, rfc3966};
pub use phone_values::Reading;
pub use reading::{nsn, read};
