//! An automaton: a pattern compiled for texts of ASCII, made once, and the machine that it keeps
//! from one search to the next.
ghost use Rattle.std.specs.Prelude.{◌≡◌, ◌≤◌, ◌<◌, ◌-◌, ◌^◌, ℕ, length, List, IfOk, IfSome, Some};
ghost use Rattle.std.specs.Prelude.{string_bytes};
ghost use Rattle.std.specs.Arc.{arc_value};
ghost use Rattle.phone_automaton.specs.Ascii.{AsciiSame};
ghost use Rattle.phone_automaton.specs.Finds.{finds, front_end, FindsInAscii};
ghost use Rattle.phone_automaton.specs.Parts.{AreFrontCellsFor};
ghost use Rattle.phone_automaton.specs.Templates.{with_match_replaced};
ghost use Rattle.regex_compile.specs.Implements.{Implements};
ghost use Rattle.regex_hir.specs.Meaning.{meaning};
ghost use Rattle.regex_hir.specs.Re.{Re};
ghost use Rattle.regex_syntax.specs.Grammar.{Names};

use crate::machine::Machine;
use crate::narrow::narrow_classes;
use crate::parts;
use crate::parts::front_cells;
use crate::place::Place;
use regex_dfa::Dfa;
use regex_hir::Hir;
use regex_nfa::Nfa;
use regex_syntax::Parsed;
use std::alloc::{AllocError, Global};
use std::marker::Model;
use std::sync::Arc;

/// The greatest size of an automaton in bytes, as that of the patterns themselves.
const LARGEST: usize = 10 << 20;

/// What searches of a pattern need, and none of them changes.
pub(crate) struct Tables {
    pub(crate) dfa: Dfa,
    /// The cells of matches at the front, but for the place of their end; none where the groups
    /// aren't known by it.
    pub(crate) front_cells: Vec<usize>,
    pub(crate) ghost front: { AreFrontCellsFor dfa.nfa front_cells.items },
}

/// Drops the tables: as a function it is proved once.
impl Drop for Tables {
    fn drop(self) {
        let Tables { dfa, front_cells } = self;
        drop(dfa);
        drop(front_cells);
    }
}

/// What all machines of an automaton share. Contracts see what it finds in each text, `finds`, and
/// the number of the last group.
pub(crate) struct Core {
    tables: Arc<Tables>,
    /// The number of the last group.
    last: u32,
}

impl Model for Core {
    ghost use Rattle.std.specs.Arc.{arc_value};
    ghost use Rattle.phone_automaton.specs.Finds.{Searcher};

    ghost Value = { Searcher };

    ghost view = { λ c. record { nfa = (arc_value c.tables).dfa.nfa; last = c.last } };
}

/// Drops what is shared: as a function it is proved once.
impl Drop for Core {
    fn drop(self) {
        let Core { tables, last: _ } = self;
        drop(tables);
    }
}

impl Core {
    /// That of a pattern that was read. None where memory is refused, or the automaton grows too
    /// large.
    fn new(alloc: Global, parsed: &Parsed) -> Option<Core>
        ensures finds { IfSome result (λ c. FindsInAscii (meaning parsed.now.hir) (finds c)) }
        ensures last { IfSome result (λ c. c.last ≡ length parsed.now.names.items - 1) }
    {
        let (nfa, last, front_cells) = narrow_compiled(alloc, parsed)?;
        let Ok(dfa) = Dfa::new(alloc, nfa) else {
            return None;
        };
        match Arc::new(alloc, Tables { dfa, front_cells }) {
            Ok(tables) => Some(Core { tables, last }),
            Err(_) => None,
        }
    }

    /// The number of the last group; 0 where the pattern has none.
    pub(crate) fn last_group(&self) -> usize
        ensures is { result ≡ self.now.last }
        ensures small { result < 2 ^ 32 }
    {
        self.last as usize
    }

    /// The tables.
    fn tables(&self) -> &Tables
        ensures { result.now.dfa.nfa ≡ self.now.nfa }
    {
        &self.tables
    }

    /// The tables once more, for a machine. None where memory is refused.
    pub(crate) fn share(&self) -> Option<Arc<Tables>>
        ensures { IfSome result (λ tables. (arc_value tables).dfa.nfa ≡ self.now.nfa) }
    {
        match self.tables.clone() {
            Ok(tables) => Some(tables),
            Err(_) => None,
        }
    }
}

/// A pattern's automaton for texts of ASCII, and a place in which it keeps a machine from one
/// search to the next. Threads may share it. Contracts see what it finds in each text, `finds`, and
/// the number of the last group.
pub struct Automaton {
    core: Core,
    place: Place,
}

impl Model for Automaton {
    ghost use Rattle.std.specs.Prelude.{◌≡◌};
    ghost use Rattle.phone_automaton.specs.Finds.{Searcher};

    ghost Value = { Searcher };

    ghost view = { λ a. a.core };

    ghost invariant = { λ a. a.place ≡ a.core };
}

/// Drops the automaton and its machine: as a function it is proved once.
impl Drop for Automaton {
    fn drop(self) {
        let Automaton { core, place } = self;
        drop(core);
        drop(place);
    }
}

impl Automaton {
    /// The automaton of a pattern that was read. None where memory is refused, or it grows too
    /// large.
    pub fn new(alloc: Global, parsed: &Parsed) -> Option<Automaton>
        ensures finds { IfSome result (λ a. FindsInAscii (meaning parsed.now.hir) (finds a)) }
        ensures last { IfSome result (λ a. a.last ≡ length parsed.now.names.items - 1) }
    {
        let core = Core::new(alloc, parsed)?;
        let place = Place::new(&core);
        Some(Automaton { core, place })
    }

    /// The text with its match at the front, which ends here, replaced by a template, in which `$1`
    /// stands for the first group; no search is made, and nothing kept. None where the pattern is
    /// no sequence of groups of fixed lengths but the last, and where the template names a group in
    /// another way than by one digit, in braces or not. Refused only for memory.
    pub fn replace_at_front(
        &self,
        alloc: Global,
        template: &str,
        hay: &str,
        end: usize,
    ) -> Result<Option<String>, AllocError>
        requires { front_end (finds self.now hay.now) ≡ Some end }
        ensures { IfOk result (λ made. IfSome made (λ out. (names : Names) → string_bytes out ≡
            with_match_replaced names template.now hay.now (finds self.now hay.now))) }
    {
        parts::replace_at_front(alloc, self.core.tables(), template, hay, end)
    }

    /// A machine for a search: the one that is kept, or a new one where there is none yet, and
    /// where another thread has it. None where memory is refused.
    #[inline]
    pub fn take(&self, alloc: Global) -> Option<Box<Machine>>
        ensures { IfSome result (λ m. m.value ≡ self.now) }
    {
        match self.place.take() {
            Some(machine) => Some(machine),
            None => self.machine(alloc),
        }
    }

    /// A new machine. None where memory is refused.
    #[cold]
    #[inline(never)]
    fn machine(&self, alloc: Global) -> Option<Box<Machine>>
        ensures { IfSome result (λ m. m.value ≡ self.now) }
    {
        match Box::new(alloc, Machine::new(alloc, &self.core)?) {
            Ok(machine) => Some(machine),
            Err(_) => None,
        }
    }

    /// Keeps a machine for the next search.
    #[inline]
    pub fn keep(&self, machine: Box<Machine>)
        requires { machine.value ≡ self.now }
    {
        self.place.put(machine);
    }
}

/// The automaton of a tree with this many groups, group 0 included.
pub(crate) fn compile(alloc: Global, hir: &Hir, groups: u32) -> Option<Nfa>
    ensures { IfSome result (λ nfa. Implements nfa (meaning hir.now)) }
{
    match regex_compile::compile(alloc, hir, groups, LARGEST) {
        Ok(nfa) => Some(nfa),
        Err(_) => None,
    }
}

/// The automaton of a pattern for ASCII texts, the number of its last group, and the cells of its
/// matches at the front; none where it is refused.
fn narrow_compiled(alloc: Global, parsed: &Parsed) -> Option<(Nfa, u32, Vec<usize>)>
    ensures nfa { IfSome result (λ p. (re : Re) × AsciiSame re (meaning parsed.now.hir) ×
        Implements p.0 re) }
    ensures last { IfSome result (λ p. p.1 ≡ length parsed.now.names.items - 1) }
    ensures front { IfSome result (λ p. AreFrontCellsFor p.0 p.2.items) }
{
    let Ok(groups) = u32::try_from(parsed.names.len()) else {
        return None;
    };
    let Ok(hir) = narrow_classes(alloc, &parsed.hir) else {
        return None;
    };
    let Ok(front_cells) = front_cells(alloc, &hir) else {
        return None;
    };
    let nfa = compile(alloc, &hir, groups)?;
    Some((nfa, groups.saturating_sub(1), front_cells))
}
