//! A writer with room for one text, that counts the pieces in which it comes.
use std::alloc::{AllocError, Global};
use std::fmt;

/// How many bytes a page has room for.
const ROOM: usize = 400;

/// What was written so far, and in how many pieces.
#[derive(Drop)]
pub struct Page {
    text: String,
    pieces: u32,
}

impl fmt::Write for Page {
    fn write_str(&mut self, piece: &str) -> fmt::Result {
        self.pieces = self.pieces.saturating_add(1);
        self.text.push_str(piece)?;
        Ok(())
    }
}

impl Page {
    /// An empty page.
    pub fn blank(alloc: Global) -> Result<Page, AllocError> {
        Ok(Page {
            text: String::with_capacity(alloc, ROOM)?,
            pieces: 0,
        })
    }

    /// Displays a value on the page. Whether that succeeded.
    pub fn write<T: fmt::Display>(&mut self, value: &T) -> bool {
        display(self, value).is_ok()
    }

    /// The text that was written.
    pub fn text(&self) -> &str {
        self.text.as_str()
    }

    /// In how many pieces it came.
    pub fn pieces(&self) -> u32 {
        self.pieces
    }
}

/// Displays a value.
fn display<W: fmt::Write, T: fmt::Display>(page: &mut W, value: &T) -> fmt::Result {
    page.write_fmt(format_args!("{value}"))
}
