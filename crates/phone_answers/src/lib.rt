//! What the field of a phone number is answered: its fields, what columns beside them tell, and the
//! same as a JSON object; and what is told of a number that was found in a text.
#![tactic(auto)]

mod answer;
mod beside;
mod extra;
mod field;
pub mod finds;
pub mod laws;
pub mod objects;
mod parts;
mod split;
mod words;

pub use answer::{Answer, Known, answer_to, push_answer};
pub use extra::{Extra, Subject, Told, push_told, tells_doubts};
pub use field::{ANSWER_WIDTH, Field};
pub use parts::Part;
pub use phone_places::Owner;
pub use split::{Shown, Which};
