//! A node of the trie.
ghost use Rattle.std.specs.Prelude.{◌≡◌};
ghost use Rattle.phone_prefixes.specs.Nodes.{bare};

/// What stands after some digits, for each digit that may be next.
#[derive(Clone, Copy, Drop)]
pub(crate) struct Node {
    /// The place of the node that stands after the digit too; 0, the place of the root, where no
    /// prefix goes on.
    pub(crate) children: [u32; 10],

    /// One more than the mark of the digits with this one at their end; 0 where they have none.
    pub(crate) marks: [u32; 10],
}

/// A node from which no digit leads, and that has no mark.
pub(crate) fn bare_node() -> Node
    ensures { result ≡ bare }
{
    Node {
        children: [0; 10],
        marks: [0; 10],
    }
}
