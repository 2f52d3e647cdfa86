//! What a call of `./phone` does with its inputs, files or standard input, one after the other: the
//! report on lines, a table, or lines that are taken one by one: for the numbers in them, as keys,
//! as numbers that are dialled, as JSON objects, in a format, or for the first line of each number.
#![tactic(auto)]

mod columns;
mod countries;
mod customers;
mod encoded;
mod finder;
mod inputs;
mod jobs;
mod pairs;
mod reader;
mod shorts;
mod strays;
mod takers;
mod text;
mod typist;
mod with_input;
mod written;

pub use columns::{Loaded, LoadedColumn, NoColumns};
pub use countries::countries_in;
pub use customers::Customers;
pub use encoded::Encoded;
pub use finder::{Finder, FoundForm, Matching};
pub use inputs::{Failure, is_standard, on_inputs};
pub use jobs::{ByLines, Job, JobError, Report};
pub use phone_lines::LineTaker;
pub use reader::Reader;
pub use shorts::Shorts;
pub use strays::{LinePlace, Strays, Tally};
pub use takers::{FirstLines, Objects};
pub use typist::Typist;
pub use with_input::WithInput;
pub use written::Written;
