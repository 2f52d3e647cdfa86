//! The names of `phone_values`, `phone_chars` and `phone_base`: values of numbers, classes of
//! characters, why a record is refused.
pub use phone_base::MetadataError;
pub use phone_chars::chars::{
    as_dec_digit, is_alpha, is_digit, is_letter, is_nd, is_number, is_plus, is_punctuation,
    is_separator, is_star, is_wide_digit, keypad, normalize, same_fold,
};
pub use phone_chars::is_viable;
pub use phone_values::consts::{
    CC, DEFAULT_EXTN_PREFIX, FG, MAX_LENGTH_FOR_COUNTRY_CODE, MAX_LENGTH_FOR_NSN,
    MIN_LENGTH_FOR_NSN, NP, PLUS_SIGN, REGION_CODE_FOR_NON_GEO_ENTITY, RFC3966_EXTN_PREFIX,
    RFC3966_ISDN_SUBADDRESS, RFC3966_PHONE_CONTEXT, RFC3966_PREFIX, SHARP_SIGN, STAR_SIGN,
};
pub use phone_values::country::{AC, Code, Id, NZ, Source, UnknownId, ZW};
pub use phone_values::{
    Carrier, Extension, Mode, NationalNumber, ParseError, Reading, Rules, Type, Validation,
};
