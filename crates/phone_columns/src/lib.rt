//! A column of texts read at once, for C and what calls C: each row is answered as the calls for
//! one text answer it, and what is told of the rows stands in columns of Arrow's layout.
#![tactic(auto)]

mod answers;
mod body;
mod call;
mod cells;
mod column;
mod given;
mod known;
pub mod laws;
mod printed;
mod texts;

pub use answers::{Answer, answer_rows};
pub use body::{Body, lay_out};
pub use call::{columns, narrow_columns};
pub use column::{Cell, Column, Fact, columns_of, has_no_column};
pub use given::{Given, Hints, Layout, Narrow, read_layouts};
