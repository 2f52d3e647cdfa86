//! Phone numbers: read from a text, printed, compared, and what holds of them all.
#![tactic(auto)]

mod formatter;
pub mod laws;
pub mod metadata;
mod parser;
mod phone_number;
mod queries;
pub mod round_trip;
mod text_sink;

pub use formatter::{FormatError, Formatter, format_with};
pub use metadata::Metadata;
pub use parser::parse_with;
pub use phone_base::MetadataError;
pub use phone_chars::is_viable;
pub use phone_number::PhoneNumber;
pub use phone_print::Texts;
pub use phone_read::validator;
pub use phone_values::{
    Carrier, Extension, Mode, NationalNumber, ParseError, Type, Validation, country,
};
pub use queries::{Country, Facts, is_valid_with};
pub use text_sink::TextSink;
