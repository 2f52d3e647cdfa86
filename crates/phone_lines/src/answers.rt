//! What answers lines.
ghost use Rattle.std.specs.Prelude.{◌≡◌, List, ℕ, IfOk, string_bytes};
ghost use Rattle.phone_lines.specs.Lines.{without_return};

use std::alloc::{AllocError, Global};

/// What answers lines, each by itself.
pub trait Answers {
    // What may be answered to a line, which is without its end.
    ghost gives: { Self → List ℕ → List ℕ → Type 0 };

    /// The answer to a line, which is without its end; refused only for memory.
    fn answer(&self, alloc: Global, line: &[u8]) -> Result<String, AllocError>
        ensures { IfOk result (λ text. gives self.now line.now (string_bytes text)) };
}

/// A line without one carriage return at its end.
pub fn without_return(line: &[u8]) -> &[u8]
    ensures { result.now ≡ without_return line.now }
{
    let Some((last, front)) = line.split_last() else {
        return line;
    };
    if *last == b'\r' { front } else { line }
}
