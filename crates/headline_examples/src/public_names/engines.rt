//! The names of `phone_engine`, its program, which `phone_tool` shows, and those of the devices.
pub use phone_device::{ByteSink, ByteSource, MemorySink, MemorySource, ReadError, Std};
pub use phone_engine::laws::{
    begins_each_report, code_is_listed, one_reading, one_report, some_reading, some_report,
    some_report_line,
};
pub use phone_engine::tool::{database_refused, program, run, status_after};
pub use phone_engine::words::{kind_word, refusal_line, region_word, source_word, validity_word};
pub use phone_engine::{Engine, Rules, RunError};
