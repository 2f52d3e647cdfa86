//! Where an entry stands in the bytes of a table.

/// Where the line of an entry begins, where its tab stands, and where it ends: places of bytes,
/// counted from 0.
#[derive(Clone, Copy, Drop)]
pub(crate) struct Span {
    pub(crate) start: usize,
    pub(crate) tab: usize,
    pub(crate) end: usize,
}
