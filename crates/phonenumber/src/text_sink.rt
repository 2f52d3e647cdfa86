//! What takes printed texts, each in one piece.
ghost use Rattle.std.specs.Prelude.{ℕ, List, Result, ⊤};
ghost use Rattle.std.specs.declared.fmt.Error.{Error};

use std::fmt;

/// Where printed texts go, each in one call. `gives` says what a call leaves, by its result; for a
/// sink that takes nothing of a text that it refuses, `gives` says that too.
pub trait TextSink {
    // What a call with a text leaves, by its result.
    ghost gives: { Self → List ℕ → Result ⊤ Error → Self → Type 0 };

    /// Takes a text, or returns an error.
    fn put(&mut self, text: &str) -> fmt::Result
        ensures { gives self.old text.now result self.new };
}

impl<W: fmt::Write> TextSink for fmt::Formatter<W> {
    ghost use Rattle.phonenumber.specs.Sinks.{puts};

    ghost gives = { puts W.write_str_gives };

    /// Writes the text, by one `write_str`. The contract of a writer says nothing of a call that
    /// failed.
    fn put(&mut self, text: &str) -> fmt::Result {
        self.write_str(text)
    }
}
