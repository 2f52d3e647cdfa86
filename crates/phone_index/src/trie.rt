//! The trie.
ghost use Rattle.std.specs.Prelude.{◌≡◌, ◌≤◌, ◌<◌, ◌+◌, ◌/◌, ◌==◌, ◌||◌, ℕ, [], length, IfOk};
ghost use Rattle.std.specs.List.{list_all};
ghost use Rattle.phone_index.specs.ListedCodes.{is_in, is_prefix_free, shortest};
ghost use Rattle.phone_index.specs.Nodes.{is_end, node_at, IsPlaceOf, IsTree};

use crate::node::Node;
use crate::steps::Steps;
use std::alloc::{AllocError, Global};
use std::marker::Model;

/// Calling codes by their digits: from the root each digit leads to a node, and each node is on the
/// way to a code. Code 0 is at the root, since no other code begins with its digit. Contracts see
/// the codes.
#[derive(Drop)]
pub struct Trie {
    nodes: Vec<Node>,
}

impl Model for Trie {
    ghost use Rattle.std.specs.Prelude.{ℕ, List};
    ghost use Rattle.phone_index.specs.Nodes.{listed_by, IsTrie};

    ghost Value = { List ℕ };

    ghost view = { λ t. listed_by t.nodes.items };

    ghost invariant = { λ t. IsTrie t.nodes.items };
}

impl Trie {
    /// No code. Refused only for memory.
    pub fn new(alloc: Global) -> Result<Trie, AllocError>
        ensures { IfOk result (λ t. t ≡ []) }
    {
        let mut nodes = Vec::new(alloc);
        nodes.push(Node::root())?;
        Ok(Trie { nodes })
    }

    /// These codes and one more. Refused only for memory.
    pub fn with(self, code: u16) -> Result<Trie, AllocError>
        ensures { IfOk result (λ t. (c : ℕ) → is_in c t ≡ (c == code || is_in c self)) }
    {
        let Trie { mut nodes } = self;
        let place = place_of(&mut nodes, code)?;
        nodes[place].listed = true;
        Ok(Trie { nodes })
    }

    /// The calling code that stands in front of a text: the shortest of one to three digits; none
    /// where the text begins with `0`, since no calling code does. Each move to a child is a step,
    /// of which it takes at most three. Takes no memory.
    pub fn shortest_in(&self, text: &str, steps: &mut Steps) -> Option<u16>
        ensures code { result ≡ shortest self.now text.now }
        ensures bound { steps.new ≤ steps.old + 3 }
    {
        let bytes = text.as_bytes();
        let mut place = 0;
        for k in 0..3 {
            if k >= bytes.len() || !bytes[k].is_ascii_digit() {
                return None;
            }
            steps.step();
            place = self.nodes[place].children[usize::from(bytes[k] - b'0')];
            if place == 0 {
                return None;
            }
            if let Some(code) = self.nodes[place].code() {
                return Some(code);
            }
        }
        None
    }

    /// Whether no code's decimal text begins another's: no node of a code has a child. One pass
    /// over the nodes; takes no memory.
    pub fn is_prefix_free(&self) -> bool
        ensures { result ≡ is_prefix_free self.now }
    {
        are_ends(&self.nodes)
    }
}

/// Whether no node of a code but the root has a child.
fn are_ends(nodes: &[Node]) -> bool
    ensures { result ≡ list_all is_end nodes.now }
{
    nodes
        .iter()
        .all(|n| n.number == 0 || !n.listed || !n.has_child())
}

/// The place of a number's node. It and those on the way to it are made where they are missing.
/// Refused only for memory.
fn place_of(nodes: &mut Vec<Node>, number: u16) -> Result<usize, AllocError>
    requires { IsTree nodes.old.items }
    ensures { IfOk result (λ place. IsPlaceOf nodes.old.items nodes.new.items number place) }
{
    if number == 0 {
        return Ok(0);
    }
    let parent = place_of(nodes, number / 10)?;
    child_of(nodes, parent, number)
}

/// The place of the node of a number, whose last digit leads to it from its parent.
fn child_of(nodes: &mut Vec<Node>, parent: usize, number: u16) -> Result<usize, AllocError>
    requires tree { IsTree nodes.old.items }
    requires some { 0 < number }
    requires inside { parent < length nodes.old.items }
    requires front { (node_at nodes.old.items parent).number ≡ number / 10 }
    ensures { IfOk result (λ place. IsPlaceOf nodes.old.items nodes.new.items number place) }
{
    let digit = usize::from(number % 10);
    let found = nodes[parent].children[digit];
    if found != 0 {
        return Ok(found);
    }
    let place = nodes.len();
    nodes.push(Node::of(number))?;
    nodes[parent].children[digit] = place;
    Ok(place)
}
