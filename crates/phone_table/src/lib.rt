//! Tables of customers: the records of a CSV text, each given back with what is known of the phone
//! number in one of its columns; and a summary of the answers: how often each type, each region,
//! each refusal and each word of what is suspicious stands there, and the JSON text of it.
#![tactic(auto)]

mod counts;
mod duplicates;
mod header;
mod holder;
mod key;
pub mod laws;
mod marked;
mod names;
mod object;
mod region;
mod rows;
mod run;
mod summary;
mod summed;
mod table;
mod tally;
mod unknown;

pub use counts::Counts;
pub use header::{Column, ColumnError, Columns, column_of, columns_of};
pub use key::e164_of;
pub use phone_answers::{
    ANSWER_WIDTH, Answer, Extra, Field, Owner, Part, Shown, Told, Which, answer_to, finds, objects,
};
pub use phone_csv::{ByteSink, ByteSource, FirstError, RunError};
pub use phone_places::{Countries, id_in};
pub use run::{Asked, TableError, write_table};
pub use summary::{Answered, Summary};
pub use summed::Totals;
pub use table::Table;
pub use tally::{Tally, add, times};
pub use unknown::{MOST_UNKNOWN, UnknownNames};
