//! The names of tables and lists: `phone_csv`, `phone_table`, `phone_prefixes`, `phone_places` and
//! `phone_book`.
pub use phone_book::{Book, BookError, BookNewError, Place};
pub use phone_csv::answer_records;
pub use phone_csv::laws::read_again;
pub use phone_places::{area_of, carrier_of, time_zones_of};
pub use phone_prefixes::{LineFault, Prefixes, PrefixesError};
pub use phone_table::objects::object_line;
pub use phone_table::{Asked, Counts, TableError, write_table};
