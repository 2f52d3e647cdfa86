//! The names of what stands on numbers in texts: `phone_engine`, `phone_find`, `phone_short` and
//! `phone_typed`.
pub use phone_engine::dialled::laws::{plus_back, prefix_back};
pub use phone_engine::dialled::{DialError, dialled_from};
pub use phone_engine::question_laws::{printed_alike, read_alike, valid_is_possible};
pub use phone_engine::{
    Possibility, Sameness, codes, compare_texts, example, possibility_of, possibility_of_text,
    regions,
};
pub use phone_find::laws::{found_alone, one_answer, printed_is_found};
pub use phone_find::{Found, Leniency, find_numbers, find_numbers_with};
pub use phone_library_laws::typed::every_beginning_is_read;
pub use phone_short::laws::{emergency_kind, emergency_reaches};
pub use phone_short::{Cost, ShortFacts, ShortKind, reaches_emergency, short_facts, short_kind};
pub use phone_typed::laws::{last_is_international, last_is_national};
pub use phone_typed::{Typing, typed};
