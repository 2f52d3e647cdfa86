//! A count that clauses read, and that takes no bytes.
ghost use Rattle.std.specs.Prelude.{◌≡◌, ℕ, ◌+◌};
ghost use base.Fml.{ftrue};

use std::marker::Model;

/// How often something happened. Only clauses see the number: at run time a count has no bytes, and
/// its calls do nothing.
#[derive(Drop)]
pub struct Count {
    pub ghost value: { ℕ },
}

impl Model for Count {
    ghost also_owns = { λ _. ftrue };
}

impl Count {
    /// The count of nothing yet.
    pub fn new() -> Count
        ensures { result.value ≡ 0 }
    {
        Count {}
    }

    /// The count after one more.
    fn next(&self) -> Count
        ensures { result.value ≡ self.now.value + 1 }
    {
        Count {}
    }

    /// Counts one more.
    pub fn tick(&mut self)
        ensures { self.new.value ≡ self.old.value + 1 }
    {
        *self = self.next();
    }
}
