//! Sources and sinks of bytes whose faults are counted, over std or in memory, and calls that pass
//! all bytes.
#![tactic(auto)]

mod block;
mod count;
mod fault;
mod limit;
mod memory;
mod script;
mod sink;
mod source;
mod standard;

pub use block::{BLOCK_LENGTH, Block};
pub use count::Count;
pub use fault::Fault;
pub use limit::{Limit, Then};
pub use memory::{MemorySink, MemorySource};
pub use script::{At, Script};
pub use sink::{ByteSink, hand_on, write_all, write_out};
pub use source::{ByteSource, ReadError, read_all};
pub use standard::Std;
