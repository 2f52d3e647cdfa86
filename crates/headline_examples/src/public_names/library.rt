//! The names of libphonenumber's rules: `phone_library` and its laws.
pub use phone_library::{NumberFacts, facts, is_valid, number_type, parse, region};
pub use phone_library_laws::again::e164_again;
pub use phone_library_laws::agreement::e164_alike;
pub use phone_library_laws::facts::{valid_by_kind, valid_is_possible};
pub use phone_library_laws::international::international_again;
pub use phone_library_laws::national::national_again;
pub use phone_library_laws::readings::{one_reading, plus_sign, some_reading};
pub use phone_library_laws::rfc3966::rfc3966_again;
pub use phone_library_laws::told::told_again;
pub use phone_library_laws::twice::read_twice;
