//! The steps from a text to a number, each by itself.
pub use crate::calling_code::country_code;
pub use crate::dialled::international_prefix;
pub use crate::stripping::national_number;
pub use crate::trims::trim;
pub use phone_parts::helper::extract;
