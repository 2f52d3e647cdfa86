//! A node of the trie.
ghost use Rattle.std.specs.Prelude.{◌≡◌};

/// The digits that lead to a node write its number; the root has none, and number 0.
#[derive(Clone, Copy, Drop)]
pub(crate) struct Node {
    pub(crate) number: u16,
    /// The number is a calling code of the trie.
    pub(crate) listed: bool,
    /// For each digit the place of the node that it leads to; 0, the place of the root, where it
    /// leads nowhere.
    pub(crate) children: [usize; 10],
}

impl Node {
    ghost use Rattle.phone_index.specs.Nodes.{bare, code_of, has_child};

    /// The root.
    pub(crate) fn root() -> Node
        ensures { result ≡ bare 0 }
    {
        Node::of(0)
    }

    /// A node without a child, of a number that isn't listed.
    pub(crate) fn of(number: u16) -> Node
        ensures { result ≡ bare number }
    {
        Node {
            number,
            listed: false,
            children: [0; 10],
        }
    }

    /// The number, if it is a code.
    pub(crate) fn code(&self) -> Option<u16>
        ensures { result ≡ code_of self.now }
    {
        if self.listed { Some(self.number) } else { None }
    }

    /// Whether a digit leads somewhere.
    pub(crate) fn has_child(&self) -> bool
        ensures { result ≡ has_child self.now }
    {
        self.children.iter().any(|&place| place != 0)
    }
}
