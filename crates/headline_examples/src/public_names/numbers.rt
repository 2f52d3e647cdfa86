//! The names of `phonenumber`, those that it shows again among them.
pub use phonenumber::country::{Code, Id, Source};
pub use phonenumber::laws::{
    announced_back, e164_back, international_back, key, reach, rfc3966_back,
};
pub use phonenumber::metadata::{
    Database, Descriptor, Descriptors, Format, Metadata as Territory, loader,
};
pub use phonenumber::round_trip::{e164, international, rfc3966};
pub use phonenumber::{
    Carrier, Country, Extension, Facts, FormatError, Formatter, Metadata, MetadataError, Mode,
    NationalNumber, ParseError, PhoneNumber, Texts, Type, Validation, format_with, is_valid_with,
    is_viable, parse_with,
};
