//! Records of a source, each given back to a sink with an answer behind its fields, or left out, in
//! blocks.
#![tactic(auto)]

mod answers;
mod blocks;
mod cutter;
mod delimiter;
mod first;
mod format;
mod front;
pub mod laws;
mod machine;
mod pending_output;
mod spelled;

pub use answers::{Answers, Refusal, add_record};
pub use blocks::{RunError, answer_records};
pub use cutter::Start;
pub use delimiter::is_delimiter;
pub use first::{First, FirstError, first_record};
pub use format::{Format, LineEnd, format_after};
pub use machine::Place;
pub use phone_device::{ByteSink, ByteSource};
