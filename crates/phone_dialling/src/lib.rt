//! How a number is written so that it can be dialled, by libphonenumber's rules: on a mobile phone;
//! from a region; in the way in which it was written; with the letters in which it was written, to
//! which we give an answer of our own too.
#![tactic(auto)]

mod abroad;
mod dialled;
mod ends;
mod kept;
mod lettered;
mod mobile;
mod original;
mod texts;

pub use abroad::{
    behind_prefix, dialled_text, from_territory, preferred_prefix, single_prefix, unless_empty,
};
pub use dialled::dialled_with_letters;
pub use lettered::text_with_letters;
pub use mobile::{MobileWay, mobile_text};
pub use original::{original_text, with_extension};
pub use texts::text_in;
