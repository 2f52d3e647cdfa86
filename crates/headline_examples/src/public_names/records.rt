//! The names of `phone_compact` and `phone_json`: records of bytes and of texts.
pub use phone_compact::{NotRead, records as records_of_bytes, write};
pub use phone_json::records as records_of_text;
