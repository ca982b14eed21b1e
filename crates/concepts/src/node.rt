// Nodes of a description as they are sent: raw records that may hold anything.
ghost use Rattle.std.specs.Prelude.{◌≡◌, ◌<◌, IfSome, IfNone};
ghost use Rattle.concepts.specs.Ops.{op_number};

use crate::op::Op;

// The highest role.
pub const LAST_ROLE: u8 = 15;

// The highest atom.
pub const LAST_ATOM: u8 = 63;

// The largest count.
pub const MOST_COUNT: u16 = 999;

// A node. Its op says which of the other fields are used; the others may hold anything.
#[derive(Clone, Copy)]
pub struct Node<K> {
    // The number of an op, or of none: as it is sent.
    pub op: u8,
    // Which role, atom or place.
    pub which: u8,
    pub count: u16,
    // The left or only operand: the number of a lower node, since a table is one block of memory.
    pub left: u8,
    pub right: u8,
    pub restriction: K,
}

impl<K> Node<K> {
    // The op, if the node has the number of one.
    pub fn op(&self) -> Option<Op>
        ensures known { IfSome result (λ op. op_number op ≡ self.now.op) }
        ensures unknown { IfNone result (8 < self.now.op) }
    {
        Op::try_from(self.op).ok()
    }
}
