//! A place for one machine of an automaton, from which a search takes it, and to which it gives it
//! back. Threads may share the place: one of them has the machine at a time, and none waits.
ghost use Rattle.std.specs.Prelude.{◌≡◌, IfSome};

use crate::automaton::Core;
use crate::machine::Machine;
use counted_slot::{Counted, FREE, Fits, TAKEN};
use std::marker::Model;

/// The word of a place whose machine is out.
const OUT: u64 = 1 << 32;

/// A machine in its place.
struct Held {
    machine: Box<Machine>,
}

/// Drops the machine: as a function it is proved once.
impl Drop for Held {
    fn drop(self) {
        let Held { machine } = self;
        drop(machine);
    }
}

impl Held {
    /// The machine.
    fn into_machine(self) -> Box<Machine>
        ensures { result ≡ self.machine }
    {
        let Held { machine } = self;
        machine
    }
}

/// A machine in the place of an automaton is one of that automaton.
impl Fits for Held {
    type Tag = Core;

    ghost fits = { λ core held. held.machine.value ≡ core };
}

/// A place for a machine. Contracts see what its automaton finds.
pub(crate) struct Place {
    slot: Counted<Option<Held>>,
}

impl Model for Place {
    ghost use Rattle.phone_automaton.specs.Finds.{Searcher};

    ghost Value = { Searcher };

    ghost view = { λ p. p.slot };
}

/// Drops the machine that is there: as a function it is proved once.
impl Drop for Place {
    fn drop(self) {
        let Place { slot } = self;
        drop(slot);
    }
}

impl Place {
    /// An empty place for the machines of an automaton.
    pub(crate) fn new(core: &Core) -> Place
        ensures { result ≡ core.now }
    {
        Place {
            slot: Counted::new(None, core),
        }
    }

    /// Takes the machine out; none where there is none, and where another thread has it.
    #[inline]
    pub(crate) fn take(&self) -> Option<Box<Machine>>
        ensures { IfSome result (λ m. m.value ≡ self.now) }
    {
        let (found, claim) = self.slot.turn(FREE, TAKEN);
        if found != FREE {
            claim.done();
            return None;
        }
        match claim.put(None, OUT) {
            Some(held) => Some(held.into_machine()),
            None => None,
        }
    }

    /// Puts a machine there, unless there is one.
    #[inline]
    pub(crate) fn put(&self, machine: Box<Machine>)
        requires { machine.value ≡ self.now }
    {
        let (found, claim) = self.slot.turn(OUT, TAKEN);
        if found != OUT {
            claim.done();
            return;
        }
        drop(claim.put(Some(Held { machine }), FREE));
    }
}
