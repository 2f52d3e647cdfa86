//! Further questions of libphonenumber, each by its rules: what a database tells of a region and of
//! a calling code; which kinds of number it has; whether a number is of a region, of a possible
//! length, of a place, dialled from abroad; how many of its digits are an area code; what is left
//! of a number that is too long; how like two numbers are; how one is written with a carrier; what
//! letters stand for.
#![tactic(auto)]

mod belonging;
mod carriers;
mod details;
mod groups;
mod kinds;
mod letters;
mod matches;
mod possible;
mod regions;
mod truncation;

pub use belonging::{is_dialled_by_region, is_dialled_from_abroad, is_geographical, is_valid_for};
pub use carriers::{national_with_carrier, national_with_preferred_carrier};
pub use details::{NumberDetails, details_of};
pub use groups::{Between, Digits, area_length, destination_length};
pub use kinds::{is_geographical_kind, kinds_of_code, kinds_of_region, mobile_token};
pub use letters::{diallable_only, digits_only, has_letters, is_diallable, key_of, with_keys};
pub use matches::{NumberMatch, extension_told, match_of};
pub use possible::{possibility_as, verdict_in};
pub use regions::{
    code_of_region, is_nanpa, is_portable, main_region, national_prefix, national_prefix_digits,
};
pub use truncation::truncated;
