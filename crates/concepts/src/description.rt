// A description that passed its checks.
ghost use Rattle.std.specs.Prelude.{◌≡◌, true};
ghost use Rattle.concepts.specs.Checks.{passes};
ghost use Rattle.concepts.specs.WellFormed.{WellFormed};

use crate::node::Node;

pub mod checks;

// A table of nodes that no check declines, beside what was held when it was checked. The last node is the description.
#[derive(Drop)]
pub struct Description<'n, 'h, K> {
    nodes: &'n [Node<K>],
    held: &'h [Option<u8>],
    ghost passed: { passes held.now nodes.now ≡ true },
}

impl<'n, 'h, K> Description<'n, 'h, K> {
    // The nodes.
    pub fn nodes(&self) -> &'n [Node<K>]
        ensures value { result.now ≡ self.now.nodes.now }
        ensures fine { WellFormed self.now.held.now result.now }
    {
        self.nodes
    }

    // For each place the number of rows of the entry held there, as the check was told.
    pub fn held(&self) -> &'h [Option<u8>]
        ensures value { result.now ≡ self.now.held.now }
        ensures fine { WellFormed result.now self.now.nodes.now }
    {
        self.held
    }
}
