//! Further questions by libphonenumber's rules: examples of numbers that a database gives, and of
//! one that isn't valid; how like texts are; the text of a number by layouts that are handed in;
//! which short numbers are services to which messages are sent, and what one is where its region
//! isn't told. And our own answers, where libphonenumber's mislead.
#![tactic(auto)]

mod answers;
mod costs;
mod examples;
mod invalid;
mod likeness;
mod lowest;
mod matches;
mod own_layouts;
mod possible;
mod records;
mod rows;
mod services;
mod short_numbers;
mod text_matches;

pub use answers::{mobile_text_in, own_layouts_text, reaches_from_abroad};
pub use costs::known_cost;
pub use examples::example_of_code;
pub use invalid::invalid_example;
pub use likeness::{LibraryLikeness, Likeness, OwnLikeness};
pub use lowest::example_of_kind;
pub use matches::match_numbers;
pub use own_layouts::text_by_layouts;
pub use possible::possibility_of;
pub use services::is_sms_service;
pub use short_numbers::{
    FactsAnywhere, cost_anywhere, facts_anywhere, is_carrier_anywhere, is_possible_anywhere,
    is_valid_anywhere, short_example, short_example_of_cost,
};
pub use text_matches::{match_text, match_texts};
