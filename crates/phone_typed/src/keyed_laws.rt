//! What holds of all that is shown.
ghost use Rattle.std.specs.Prelude.{◌≡◌, ◌++◌, ℕ, List};
ghost use Rattle.phone_typed.specs.KeyedFields.{Field};
ghost use Rattle.phone_typed.specs.Steps.{typed_all};

/// Steps don't matter: a text typed after another gives what both give when they are typed as one.
pub fn steps_give_the_same()
    ensures { (a b : List ℕ) (s : Field) → typed_all (a ++ b) s ≡ typed_all b (typed_all a s) }
{}
