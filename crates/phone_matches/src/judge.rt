//! What accepts pieces of a text.
ghost use Rattle.std.specs.Prelude.{◌≡◌, [], ℕ, List, IfOk, IfSome, MatchOption, chars};
ghost use Rattle.phone_matches.specs.Searches.{Accepts};

use std::alloc::{AllocError, Global};

/// What accepts pieces of a text, each as something.
pub trait Judge<N> {
    // What is accepted between what stands before it and what follows it, and as what.
    ghost accepts: { Self → Accepts N };

    /// What a piece is accepted as; none where it isn't, as the empty piece never is. Refused only
    /// for memory.
    fn judge(
        &self,
        alloc: Global,
        before: &str,
        piece: &str,
        after: &str,
    ) -> Result<Option<N>, AllocError>
        ensures told { IfOk result (λ told. MatchOption told
            ((n : N) → ¬ (accepts self.now
            (chars before.now) (chars piece.now) (chars after.now) n))
            (λ n. accepts self.now (chars before.now) (chars piece.now) (chars after.now) n)) }
        ensures some { IfOk result (λ told. IfSome told (λ _. ¬ (piece.now ≡ []))) };
}
