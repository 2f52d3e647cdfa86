//! A machine: a pattern's automaton for ASCII texts, which it shares, and the steps that its own
//! searches have worked out.
ghost use Rattle.std.specs.Prelude.{◌≡◌, ◌-◌, ◌+◌, ◌*◌, ◌≤◌, ℕ, length, vec_len, string_bytes};
ghost use Rattle.std.specs.Prelude.{IfOk, IfSome, option_map};
ghost use Rattle.std.specs.Arc.{arc_value};
ghost use Rattle.phone_automaton.specs.Finds.{at_front, captured, finds, front_end, group_at};
ghost use Rattle.phone_automaton.specs.Groups.{AreGroupsFor, captured_at};
ghost use Rattle.phone_automaton.specs.Templates.{with_match_replaced};
ghost use Rattle.regex_dfa.specs.Search.{IsForwardFor};
ghost use Rattle.regex_syntax.specs.Grammar.{Names};
ghost use Rattle.regex_vm.specs.Found.{span};

use crate::automaton::{Core, Tables};
use crate::groups::Groups;
use crate::parts::find_groups;
use crate::template;
use regex_dfa::{End, Forward};
use std::alloc::{AllocError, Global};
use std::marker::Model;
use std::sync::Arc;

/// What the first match of a pattern spans, and its group 1 and its last group, each part by the
/// bytes at which it begins and ends. Without a group, or where one took no part in the match, the
/// first is none; a pattern without groups has the match as its last one.
#[derive(Clone, Copy, Debug, PartialEq, Eq)]
pub struct Captured {
    /// The match.
    pub span: (usize, usize),
    /// The first group.
    pub first: Option<(usize, usize)>,
    /// The last group.
    pub last: Option<(usize, usize)>,
}

/// How many bytes of states without groups a machine keeps.
const KEPT: usize = 0x1_0000;

/// How many bytes are searched with the kept states: this many, and `WIDE_PER_STATE` more for each
/// state of the pattern. After more bytes the kit would give each state columns for pairs of bytes,
/// whose memory searches of short texts never win back. So the states are forgotten before that.
const WIDE: usize = 0x1000;

const WIDE_PER_STATE: usize = 0x80;

/// A pattern's automaton for texts of ASCII, which it shares, and the steps that its own searches
/// have worked out, with groups and without. Contracts see what it finds in each text, `finds`, and
/// the number of the last group.
pub struct Machine {
    alloc: Global,
    tables: Arc<Tables>,
    forward: Forward,
    /// How many bytes `forward` was asked to search, and with how many it is made anew.
    read: usize,
    most: usize,
    groups: Groups,
    /// The number of the last group.
    last: usize,
    ghost forth: { IsForwardFor forward (arc_value tables).dfa },
    ghost own: { AreGroupsFor groups (arc_value tables).dfa },
    ghost room: { vec_len groups.cells ≡ 2 * last + 2 },
}

impl Model for Machine {
    ghost use Rattle.std.specs.Arc.{arc_value};
    ghost use Rattle.phone_automaton.specs.Finds.{Searcher};

    ghost Value = { Searcher };

    ghost view = { λ m. record { nfa = (arc_value m.tables).dfa.nfa; last = m.last } };
}

/// Drops the automaton and the steps. As a function it is proved here alone, and not in each crate
/// that drops a machine.
impl Drop for Machine {
    fn drop(self) {
        let Machine {
            alloc: _,
            tables,
            forward,
            read: _,
            most: _,
            groups,
            last: _,
        } = self;
        drop(tables);
        drop(forward);
        drop(groups);
    }
}

/// What a group spans, by the cells from group 1 on.
pub(crate) fn group_of_cells(
    whole: (usize, usize),
    cells: &[usize],
    n: usize,
) -> Option<(usize, usize)>
    requires { 2 * n ≤ length cells.now }
    ensures { result ≡ group_at whole cells.now n }
{
    if n == 0 {
        return Some(whole);
    }
    let first = cells[2 * n - 2];
    let last = cells[2 * n - 1];
    if first == 0 || last == 0 {
        return None;
    }
    Some((first - 1, last - 1))
}

/// What a match captures, by its span and its cells.
fn captured_at(found: Option<(usize, usize)>, cells: &[usize], last: usize) -> Option<Captured>
    requires { length cells.now ≡ 2 * last + 2 }
    ensures { result ≡ option_map (captured_at last cells.now) found }
{
    let span = found?;
    Some(Captured {
        span,
        first: group_of_cells(span, cells, 1),
        last: group_of_cells(span, cells, last),
    })
}

impl Machine {
    /// A machine of an automaton, whose searches have worked out nothing yet. None where memory is
    /// refused.
    #[cold]
    #[inline(never)]
    pub(crate) fn new(alloc: Global, core: &Core) -> Option<Machine>
        ensures { IfSome result (λ m. m ≡ core.now) }
    {
        let last = core.last_group();
        let Ok(groups) = Groups::new(alloc, 2 * last + 2) else {
            return None;
        };
        let tables = core.share()?;
        let states = tables.dfa.nfa.states.len();
        let most = WIDE.saturating_add(states.saturating_mul(WIDE_PER_STATE));
        let Ok(forward) = Forward::with_budget(alloc, &tables.dfa, false, KEPT) else {
            return None;
        };
        Some(Machine {
            alloc,
            tables,
            forward,
            read: 0,
            most,
            groups,
            last,
        })
    }

    /// Counts the bytes of a search without groups, which is next.
    #[inline]
    fn attend(&mut self, bytes: usize)
        ensures { self.new ≡ self.old }
    {
        self.read = self.read.saturating_add(bytes);
        if self.read >= self.most {
            self.renew(bytes);
        }
    }

    /// Counts the bytes of a search with groups, which is next: it begins as one without groups
    /// where the cells of matches at the front are known.
    #[inline]
    fn attend_groups(&mut self, bytes: usize)
        ensures { self.new ≡ self.old }
    {
        if !self.tables.front_cells.is_empty() {
            self.attend(bytes);
        }
    }

    /// Forgets the states without groups; where memory is refused, they are kept.
    #[cold]
    #[inline(never)]
    fn renew(&mut self, bytes: usize)
        ensures { self.new ≡ self.old }
    {
        if let Ok(forward) = Forward::with_budget(self.alloc, &self.tables.dfa, false, KEPT) {
            self.forward = forward;
            self.read = bytes;
        }
    }

    /// The number of the last group; 0 where the pattern has none.
    pub fn last_group(&self) -> usize
        ensures { result ≡ self.now.last }
    {
        self.last
    }

    /// Whether the first match begins at the first byte. None where the automaton gives up.
    pub fn is_at_front(&mut self, hay: &[u8]) -> Option<bool>
        ensures found { IfSome result (λ b. b ≡ at_front (finds self.old hay.now)) }
        ensures same { self.new ≡ self.old }
    {
        self.attend(hay.len());
        self.begins(hay)
    }

    /// Whether the first match begins at the first byte, by the states that are kept.
    fn begins(&mut self, hay: &[u8]) -> Option<bool>
        ensures found { IfSome result (λ b. b ≡ at_front (finds self.old hay.now)) }
        ensures same { self.new ≡ self.old }
    {
        match self
            .forward
            .find_end(&self.tables.dfa, hay, 0, hay.len(), true, true)
        {
            End::At(_) => Some(true),
            End::NoMatch => Some(false),
            _ => None,
        }
    }

    /// Where the first match ends, if it begins at the first byte. None where the automaton gives
    /// up.
    pub fn front_end(&mut self, hay: &[u8]) -> Option<Option<usize>>
        ensures found { IfSome result (λ end. end ≡ front_end (finds self.old hay.now)) }
        ensures within { IfSome result (λ end. IfSome end (λ e. e ≤ length hay.now)) }
        ensures same { self.new ≡ self.old }
    {
        self.attend(hay.len());
        self.end_at_front(hay)
    }

    /// The same by the states that are kept.
    fn end_at_front(&mut self, hay: &[u8]) -> Option<Option<usize>>
        ensures found { IfSome result (λ end. end ≡ front_end (finds self.old hay.now)) }
        ensures within { IfSome result (λ end. IfSome end (λ e. e ≤ length hay.now)) }
        ensures same { self.new ≡ self.old }
    {
        match self
            .forward
            .find_end(&self.tables.dfa, hay, 0, hay.len(), true, false)
        {
            End::At(end) => Some(Some(end)),
            End::NoMatch => Some(None),
            _ => None,
        }
    }

    /// Where the first match begins and ends. None where the automata give up.
    pub fn span(&mut self, hay: &[u8]) -> Option<Option<(usize, usize)>>
        ensures found { IfSome result (λ found. found ≡ option_map span (finds self.old hay.now)) }
        ensures same { self.new ≡ self.old }
    {
        self.attend(hay.len());
        self.span_of_first(hay)
    }

    /// Where the first match begins and ends, by the states that are kept. A match at the front is
    /// the first one, and needs no groups to be found.
    fn span_of_first(&mut self, hay: &[u8]) -> Option<Option<(usize, usize)>>
        ensures found { IfSome result (λ found. found ≡ option_map span (finds self.old hay.now)) }
        ensures same { self.new ≡ self.old }
    {
        let front = self
            .forward
            .find_end(&self.tables.dfa, hay, 0, hay.len(), true, false);
        if let End::At(end) = front {
            return Some(Some((0, end)));
        }
        self.span_anywhere(hay)
    }

    /// Where the first match begins and ends, wherever it begins. None where the automaton gives
    /// up.
    fn span_anywhere(&mut self, hay: &[u8]) -> Option<Option<(usize, usize)>>
        ensures found { IfSome result (λ found. found ≡ option_map span (finds self.old hay.now)) }
        ensures same { self.new ≡ self.old }
    {
        self.groups.find(&self.tables.dfa, hay)
    }

    /// The first match with its groups. None where the automaton gives up.
    pub fn captures(&mut self, hay: &[u8]) -> Option<Option<Captured>>
        ensures found { IfSome result (λ found. found ≡
            option_map (captured self.old.last) (finds self.old hay.now)) }
        ensures same { self.new ≡ self.old }
    {
        self.attend_groups(hay.len());
        let tables = &*self.tables;
        let found = find_groups(tables, &mut self.forward, &mut self.groups, hay)?;
        Some(captured_at(found, self.groups.cells(), self.last))
    }

    /// The text with its first match replaced by a template, in which `$1` stands for the first
    /// group; a text without a match as it is. None where the automaton gives up, or the template
    /// names a group in another way than by one digit, in braces or not, or a group that the
    /// pattern doesn't have. Refused only for memory.
    pub fn replace(
        &mut self,
        alloc: Global,
        template: &str,
        hay: &str,
    ) -> Result<Option<String>, AllocError>
        ensures replaced { IfOk result (λ found. IfSome found (λ out. (names : Names) →
            string_bytes out ≡ with_match_replaced names template.now hay.now
            (finds self.old hay.now))) }
        ensures same { self.new ≡ self.old }
    {
        self.attend_groups(hay.len());
        let (tables, bytes) = (&*self.tables, hay.as_bytes());
        let Some(found) = find_groups(tables, &mut self.forward, &mut self.groups, bytes) else {
            return Ok(None);
        };
        template::replace_if_any(alloc, template, hay, found, self.groups.cells())
    }
}
