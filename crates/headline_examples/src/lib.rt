//! What the premises of reading back take, and why each is there, on the databases B, C, D and E of
//! the replayed tables; what those of dialling, of finding, of what is typed, and of
//! libphonenumber's rules take; and why a text may be read in parts. These functions do nothing;
//! their contracts say it. And every public name, under its path.
#![tactic(auto)]

mod by_library;
mod dialled;
mod needed;
mod plain;
pub mod public_names;
mod side_by_side;
mod told;
mod typed;

pub use by_library::{
    home_number, own_number, printed_with_code, printed_without_code, read_alike, settled,
};
pub use dialled::{dialled_behind_a_plus, dialled_behind_a_prefix, found_in_a_text};
pub use needed::{
    announced_by_layout, announced_otherwise, codes_apart, digits_dropped, extensions,
    plus_in_rule, prefix_stripped, two_digits, value_zero, wrong_length,
};
pub use plain::{
    announced_by_anexo, announced_by_x, with_empty_extension, with_extension, without_extension,
    without_layout,
};
pub use side_by_side::report_of_two_parts;
pub use told::{short_number, valid_number};
pub use typed::{typed_abroad, typed_at_home, typed_in_part};
