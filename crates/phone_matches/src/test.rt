//! What is asked of the groups of a number.
ghost use Rattle.std.specs.Prelude.{◌≡◌, ℕ, Bool, List};
ghost use Rattle.phone_matches.specs.Runs.{told};

/// A test of groups, which are bytes.
pub trait Test {
    ghost passes: { Self → List (List ℕ) → Bool };

    /// Whether groups pass it.
    fn is_passed(&self, groups: &[&[u8]]) -> bool
        ensures { result ≡ passes self.now (told groups.now) };
}
