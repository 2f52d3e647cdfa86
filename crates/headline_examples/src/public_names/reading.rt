//! The names of `phone_read`.
pub use phone_read::helper::{country_code, extract, international_prefix, national_number, trim};
pub use phone_read::laws::{code_in_front, listed_code, one_reading, some_reading};
pub use phone_read::natural::{NoReading, phone_number as natural_number};
pub use phone_read::rfc3966::phone_number as tel_number;
pub use phone_read::validator::{length, number_type, source_for};
pub use phone_read::{Number, Reading, read};
