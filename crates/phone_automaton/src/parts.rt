//! Patterns that are groups one after the other, as those of number formats are. Where each group
//! but the last has one length, the end of a match at the front says where its groups begin and
//! end.
ghost use Rattle.std.specs.Prelude.{◌≡◌, ◌+◌, ◌++◌, drop, length, take, IfOk, IfSome, IsTrue, Some};
ghost use Rattle.std.specs.Prelude.{string_bytes, vec_len};
ghost use Rattle.phone_automaton.specs.Digits.{AreDigits};
ghost use Rattle.phone_automaton.specs.Finds.{found_by};
ghost use Rattle.phone_automaton.specs.Groups.{AreGroupsFor, IsFoundIn};
ghost use Rattle.phone_automaton.specs.Parts.{AreBefore, AreFrontCells, IsGroup};
ghost use Rattle.phone_automaton.specs.Parts.{IsGroupOf, with_end};
ghost use Rattle.phone_automaton.specs.Templates.{IsWritten, with_match_replaced};
ghost use Rattle.regex_dfa.specs.Search.{IsForwardFor, end_from};
ghost use Rattle.regex_hir.specs.Meaning.{meaning};
ghost use Rattle.regex_hir.specs.Re.{Re, group};
ghost use Rattle.regex_syntax.specs.Grammar.{Names, group_count};
ghost use Rattle.regex_syntax.specs.Same.{choice, sequence};

use crate::automaton::Tables;
use crate::groups::Groups;
use crate::template;
use regex_dfa::{End, Forward};
use regex_hir::Hir;
use std::alloc::{AllocError, Global};
use std::slice;

/// Whether no group stands in a tree.
#[cycle(ungrouped)]
fn has_no_group(hir: &Hir) -> bool
    ensures { IsTrue result → group_count (meaning hir.now) ≡ 0 }
{
    match hir {
        Hir::Empty | Hir::Literal(_) | Hir::Bytes(_) | Hir::Chars(_) | Hir::Look(_) => true,
        Hir::Repetition { sub, .. } => has_no_group(sub),
        Hir::Capture { .. } => false,
        Hir::Concat(subs) | Hir::Alternation(subs) => have_no_group(subs),
    }
}

/// The same of each of these trees.
#[cycle(ungrouped)]
fn have_no_group(subs: &[Hir]) -> bool
    ensures sequence { IsTrue result → group_count (sequence subs.now) ≡ 0 }
    ensures choice { IsTrue result → group_count (choice subs.now) ≡ 0 }
{
    for i in 0..subs.len() {
        if !has_no_group(&subs[i]) {
            return false;
        }
    }
    true
}

/// What the group with this number holds, if the tree is that group, and no other stands in it.
fn group_body(hir: &Hir, number: usize) -> Option<&Hir>
    ensures { IfSome result (λ body. (meaning hir.now ≡ group number (meaning body.now)) ×
        (group_count (meaning body.now) ≡ 0)) }
{
    match hir {
        Hir::Capture { index, sub } if *index as usize == number && has_no_group(sub) => Some(sub),
        _ => None,
    }
}

/// Whether the tree is the group with this number, and no other stands in it.
fn is_group(hir: &Hir, number: usize) -> bool
    ensures { IsTrue result → IsGroup number (meaning hir.now) }
{
    group_body(hir, number).is_some()
}

/// The length of the group with this number, if the tree is that group, no other stands in it, and
/// it has one length.
fn group_length(hir: &Hir, number: usize) -> Option<usize>
    ensures { IfSome result (IsGroupOf number (meaning hir.now)) }
{
    let body = group_body(hir, number)?;
    let least = body.min_len();
    if regex_extract::max_len(body)? == least {
        Some(least)
    } else {
        None
    }
}

/// The cell of the end of a group that begins where this cell says, if the tree is the group with
/// this number, and it has one length.
fn next_cell(hir: &Hir, number: usize, cell: usize) -> Option<usize>
    ensures { IfSome result (λ next. (n : _) × IsGroupOf number (meaning hir.now) n ×
        (next ≡ cell + n)) }
{
    cell.checked_add(group_length(hir, number)?)
}

/// The cells of groups one after the other from the front, and of the place where the next group
/// begins. None where the trees aren't these groups, or one of them has more than one length.
fn cells_before(alloc: Global, subs: &[Hir]) -> Result<Option<Vec<usize>>, AllocError>
    ensures { IfOk result (λ made. IfSome made (λ cells.
        AreBefore cells.items (length subs.now) (sequence subs.now))) }
{
    let mut cells = Vec::new(alloc);
    cells.push(1)?;
    let mut cell = 1usize;
    for i in 0..subs.len() {
        let Some(next) = next_cell(&subs[i], i + 1, cell) else {
            return Ok(None);
        };
        cell = next;
        cells.push(cell)?;
        cells.push(cell)?;
    }
    Ok(Some(cells))
}

/// No cells, which say nothing.
fn no_cells(alloc: Global) -> Vec<usize>
    ensures { (re : Re) → AreFrontCells re result.items }
{
    Vec::new(alloc)
}

/// The cells of matches at the front, without the place of their end, where a pattern is groups one
/// after the other, no group stands in another, and each but the last has one length. None for any
/// other pattern. Refused only for memory.
pub(crate) fn front_cells(alloc: Global, hir: &Hir) -> Result<Vec<usize>, AllocError>
    ensures { IfOk result (λ cells. AreFrontCells (meaning hir.now) cells.items) }
{
    match hir {
        Hir::Concat(subs) => front_cells_of_all(alloc, subs),
        Hir::Capture { .. } => front_cells_of_all(alloc, slice::from_ref(hir)),
        _ => Ok(no_cells(alloc)),
    }
}

/// The same of trees one after the other.
fn front_cells_of_all(alloc: Global, subs: &[Hir]) -> Result<Vec<usize>, AllocError>
    ensures { IfOk result (λ cells. AreFrontCells (sequence subs.now) cells.items) }
{
    let count = subs.len();
    if count == 0 || !is_group(&subs[count - 1], count) {
        return Ok(no_cells(alloc));
    }
    let Some(mut cells) = cells_before(alloc, &subs[..count - 1])? else {
        return Ok(no_cells(alloc));
    };
    cells.extend_from_slice(&[0, 0, 0])?;
    Ok(cells)
}

/// What the first match spans; the cells are its groups then. A match at the front whose groups are
/// known by its end is found without a search for groups. None where the automata give up.
pub(crate) fn find_groups(
    tables: &Tables,
    forward: &mut Forward,
    groups: &mut Groups,
    hay: &[u8],
) -> Option<Option<(usize, usize)>>
    requires forth { IsForwardFor forward.old tables.now.dfa }
    requires own { AreGroupsFor groups.old tables.now.dfa }
    ensures forth { IsForwardFor forward.new tables.now.dfa }
    ensures own { AreGroupsFor groups.new tables.now.dfa }
    ensures width { vec_len groups.new.cells ≡ vec_len groups.old.cells }
    ensures found { IfSome result (IsFoundIn tables.now.dfa.nfa hay.now groups.new.cells.items) }
{
    let (dfa, front) = (&tables.dfa, tables.front_cells.as_slice());
    if front.len() > 3 && front.len() == groups.cells().len() {
        let end = forward.find_end(dfa, hay, 0, hay.len(), true, false);
        if let End::At(end) = end {
            groups.put(front, end);
            return Some(Some((0, end)));
        }
    }
    groups.find(dfa, hay)
}

/// The text with its match at the front, which ends here, replaced by a template, by the cells of
/// such matches. None where the groups aren't known by the match's end, or the template names a
/// group in another way than by one digit, in braces or not. Refused only for memory.
pub(crate) fn replace_by_cells(
    alloc: Global,
    front: &[usize],
    template: &str,
    hay: &str,
    end: usize,
) -> Result<Option<String>, AllocError>
    ensures { IfOk result (λ made. IfSome made (λ out. (bytes : _) ×
        (string_bytes out ≡ (take 0 hay.now ++ bytes) ++ drop end hay.now) ×
        IsWritten template.now hay.now (0, end) (with_end front.now end) bytes)) }
{
    if front.len() <= 3 {
        return Ok(None);
    }
    template::replace(alloc, template, hay, (0, end), front, front.len() - 3)
}

/// The same of a text of digits.
pub(crate) fn replace_in_digits(
    alloc: Global,
    front: &[usize],
    template: &str,
    hay: &str,
    end: usize,
) -> Result<Option<String>, AllocError>
    requires { AreDigits hay.now }
    ensures { IfOk result (λ made. IfSome made (λ out. (bytes : _) ×
        (string_bytes out ≡ (take 0 hay.now ++ bytes) ++ drop end hay.now) ×
        IsWritten template.now hay.now (0, end) (with_end front.now end) bytes)) }
{
    if front.len() <= 3 {
        return Ok(None);
    }
    template::replace_in_digits(alloc, template, hay, end, front, front.len() - 3)
}

/// The text with its match at the front, which ends here, replaced by a template. None where
/// `replace_by_cells` serves it not. Refused only for memory.
pub(crate) fn replace_at_front(
    alloc: Global,
    tables: &Tables,
    template: &str,
    hay: &str,
    end: usize,
) -> Result<Option<String>, AllocError>
    requires { end_from tables.now.dfa.nfa hay.now (length hay.now) tables.now.dfa.nfa.start 0 ≡
        Some end }
    ensures { IfOk result (λ made. IfSome made (λ out. (names : Names) → string_bytes out ≡
        with_match_replaced names template.now hay.now (found_by tables.now.dfa.nfa hay.now))) }
{
    replace_by_cells(alloc, tables.front_cells.as_slice(), template, hay, end)
}
