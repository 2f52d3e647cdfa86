//! The steps that look-ups take.
ghost use Rattle.std.specs.Prelude.{◌≡◌, ◌+◌};

use phone_device::Count;
use std::marker::Model;

/// How many steps were taken. Only clauses see the number: at run time it has no bytes. All that
/// changes it is a step that is taken.
#[derive(Drop)]
pub struct Steps {
    taken: Count,
}

impl Model for Steps {
    ghost use Rattle.std.specs.Prelude.{ℕ};

    ghost Value = { ℕ };

    ghost view = { λ s. s.taken.value };
}

impl Steps {
    /// No step yet.
    pub fn new() -> Steps
        ensures { result ≡ 0 }
    {
        Steps {
            taken: Count::new(),
        }
    }

    /// One step more.
    pub fn step(&mut self)
        ensures { self.new ≡ self.old + 1 }
    {
        self.taken.tick();
    }
}
