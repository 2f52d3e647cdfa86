//! The marks around a call whose requests for memory are refused, one in each run:
//! `tools/refuse-memory` counts the requests between them.
use std::alloc::Global;

/// How many bytes the mark before a call asks for. Nothing else asks for as many.
const BEFORE: usize = 70001;

/// How many bytes the mark behind it asks for.
const BEHIND: usize = 70003;

/// Asks for so much room, writes to it, and lets it go.
fn mark(alloc: Global, room: usize) {
    if let Ok(mut bytes) = Vec::with_capacity(alloc, room) {
        let _written = bytes.push(0u8);
    }
}

/// Stands right before a call.
pub fn begin(alloc: Global) {
    mark(alloc, BEFORE)
}

/// The answer of a call, with the marks around it: `around(alloc, begin(alloc), call())`.
pub fn around<T>(alloc: Global, _begun: (), answer: T) -> T {
    mark(alloc, BEHIND);
    answer
}
