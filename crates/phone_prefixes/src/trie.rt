//! The trie.
ghost use Rattle.std.specs.Prelude.{◌≡◌, ◌≤◌, ◌<◌, ◌+◌, ◌++◌, ◌∷◌, ℕ, List, [], length, reverse};
ghost use Rattle.std.specs.Prelude.{Ok, None};
ghost use Rattle.std.specs.Prelude.{Some, IfOk, MatchOption, OnOk, true, false, IsSome};
ghost use Rattle.std.specs.Char.{is_ascii_digit};
ghost use Rattle.std.specs.List.{list_all};
ghost use Rattle.std.specs.Option.{option_or};
ghost use Rattle.phone_prefixes.specs.Marks.{IsLongestMark, IsMarked, MarksNone};
ghost use Rattle.phone_prefixes.specs.Nodes.{mark_at, mark_of, some_mark, walk, IsGrown, IsTree};

use crate::node::{Node, bare_node};
use phone_index::Steps;
use std::alloc::{AllocError, Global};

/// Marks of texts of digits. From the root each digit leads to a node, whose table of ten has the
/// marks and the nodes of what is one digit longer. The nodes stand in one vector and name one
/// another by their places in it, so none is an allocation of its own.
#[derive(Drop)]
pub(crate) struct Trie {
    pub(crate) nodes: Vec<Node>,
}

impl Trie {
    /// No mark. Refused only for memory.
    pub(crate) fn new(alloc: Global) -> Result<Trie, AllocError>
        ensures tree { IfOk result (λ t. IsTree t.nodes.items) }
        ensures none { IfOk result (λ t. (text : List ℕ) → mark_of t.nodes.items text ≡ None) }
    {
        let mut nodes = Vec::new(alloc);
        nodes.push(bare_node())?;
        Ok(Trie { nodes })
    }

    /// Gives a text of digits a mark, where it has none; else it says `false`, and all marks stay.
    /// Refused only for memory.
    pub(crate) fn mark(&mut self, text: &[u8], mark: usize) -> Result<bool, AllocError>
        requires tree { IsTree self.old.nodes.items }
        requires some { 0 < length text.now }
        requires digits { list_all is_ascii_digit text.now ≡ true }
        ensures tree { OnOk result (IsTree self.new.nodes.items) }
        ensures free { result ≡ Ok true → mark_of self.old.nodes.items text.now ≡ None }
        ensures marked { result ≡ Ok true → IsMarked (mark_of self.old.nodes.items)
            (mark_of self.new.nodes.items) text.now mark }
        ensures taken { result ≡ Ok false → IsSome (mark_of self.old.nodes.items text.now) }
    {
        let Some((last, front)) = text.split_last() else {
            return Ok(false);
        };
        let place = node_of(&mut self.nodes, front)?;
        set_mark(&mut self.nodes, place, *last, mark)
    }

    /// The mark of the longest front of a text that has one, of fronts of at most 15 bytes. Each
    /// digit that is looked up is a step. Takes no memory.
    pub(crate) fn longest(&self, text: &[u8], steps: &mut Steps) -> Option<usize>
        requires { IsTree self.now.nodes.items }
        ensures longest { MatchOption result (MarksNone (mark_of self.now.nodes.items) text.now 15)
            (IsLongestMark (mark_of self.now.nodes.items) text.now 15) }
        ensures bound { steps.new ≤ steps.old + 15 }
    {
        let mut place = 0;
        let mut longest = None;
        for k in 0..15 {
            if k >= text.len() || !text[k].is_ascii_digit() {
                return longest;
            }
            steps.step();
            let digit = usize::from(text[k] - b'0');
            let node = &self.nodes[place];
            longest = later(longest, node.marks[digit]);
            place = node.children[digit] as usize;
            if place == 0 {
                return longest;
            }
        }
        longest
    }
}

/// The mark of a longer front, which a node has as `number`, or the one so far where it has none.
fn later(longest: Option<usize>, number: u32) -> Option<usize>
    ensures { result ≡ option_or (some_mark number) longest }
{
    if number == 0 {
        longest
    } else {
        Some(number as usize - 1)
    }
}

/// Gives a node a mark for a digit, where it has none; else it says `false`. Refused only for
/// memory.
fn set_mark(nodes: &mut Vec<Node>, place: usize, digit: u8, mark: usize) -> Result<bool, AllocError>
    requires tree { IsTree nodes.old.items }
    requires inside { place < length nodes.old.items }
    requires digit { is_ascii_digit digit ≡ true }
    ensures tree { IsTree nodes.new.items }
    ensures free { result ≡ Ok true → mark_at nodes.old.items place digit ≡ None }
    ensures marked { result ≡ Ok true → (front : List ℕ) →
        walk nodes.old.items (reverse front) ≡ Some place → IsMarked (mark_of nodes.old.items)
        (mark_of nodes.new.items) (front ++ digit ∷ []) mark }
    ensures taken { result ≡ Ok false → IsSome (mark_at nodes.old.items place digit) }
{
    let column = usize::from(digit - b'0');
    let number = stored_mark(mark)?;
    if nodes[place].marks[column] != 0 {
        return Ok(false);
    }
    nodes[place].marks[column] = number;
    Ok(true)
}

/// A mark as a node has it: one more. Refused where that doesn't fit 32 bits.
fn stored_mark(mark: usize) -> Result<u32, AllocError>
    ensures { IfOk result (λ n. n ≡ mark + 1) }
{
    let mark = in_32_bits(mark)?;
    mark.checked_add(1).ok_or(AllocError)
}

/// The same number in 32 bits, where it fits them.
fn in_32_bits(number: usize) -> Result<u32, AllocError>
    ensures { IfOk result (λ n. n ≡ number) }
{
    match u32::try_from(number) {
        Ok(number) => Ok(number),
        Err(_) => Err(AllocError),
    }
}

/// The place of the node after these digits. It and those on the way to it are made where they are
/// missing. Refused only for memory.
fn node_of(nodes: &mut Vec<Node>, digits: &[u8]) -> Result<usize, AllocError>
    requires tree { IsTree nodes.old.items }
    requires digits { list_all is_ascii_digit digits.now ≡ true }
    ensures grown { IsGrown nodes.old.items nodes.new.items }
    ensures leads { IfOk result (λ place. walk nodes.new.items (reverse digits.now) ≡ Some place) }
{
    let mut place = 0;
    for digit in digits {
        place = child_of(nodes, place, *digit)?;
    }
    Ok(place)
}

/// The place of the node to which a digit leads from one. It is made where it is missing. Refused
/// only for memory.
fn child_of(nodes: &mut Vec<Node>, place: usize, digit: u8) -> Result<usize, AllocError>
    requires tree { IsTree nodes.old.items }
    requires inside { place < length nodes.old.items }
    requires digit { is_ascii_digit digit ≡ true }
    ensures grown { IsGrown nodes.old.items nodes.new.items }
    ensures leads { IfOk result (λ child. (text : List ℕ) → walk nodes.old.items text ≡ Some place →
        walk nodes.new.items (digit ∷ text) ≡ Some child) }
{
    let column = usize::from(digit - b'0');
    let found = nodes[place].children[column];
    if found != 0 {
        return Ok(found as usize);
    }
    let child = nodes.len();
    let number = in_32_bits(child)?;
    nodes.push(bare_node())?;
    nodes[place].children[column] = number;
    Ok(child)
}
