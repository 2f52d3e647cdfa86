//! Lines of a source, each taken in its turn and answered to a sink, in blocks.
#![tactic(auto)]

mod answers;
mod blocks;
pub mod laws;
mod pending_output;
mod takers;

pub use answers::{Answers, without_return};
pub use blocks::{RunError, answer_lines, take_lines};
pub use phone_device::{ByteSink, ByteSource};
pub use takers::LineTaker;
