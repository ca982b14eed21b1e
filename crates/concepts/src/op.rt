// The ops of nodes, and the numbers by which they are sent.
ghost use Rattle.std.specs.Prelude.{◌≡◌};
ghost use Rattle.concepts.specs.Ops.{Decodes, op_number};

// What a node says, and which of its fields it uses.
#[derive(Clone, Copy, Debug, PartialEq, Eq)]
pub enum Op {
    Thing,
    Nothing,
    // The atom `which`.
    Prim,
    // The restriction.
    Within,
    // The operands `left` and `right`.
    And,
    // The role `which`, and the operand `left`.
    All,
    // The count, and the role `which`.
    AtLeast,
    AtMost,
    // The place `which`.
    Entry,
}

// A number that no op has.
#[derive(Clone, Copy, Debug, PartialEq, Eq)]
pub struct UnknownOp(pub u8);

impl TryFrom<u8> for Op {
    type Error = UnknownOp;

    ghost try_from_gives = { Decodes };

    fn try_from(number: u8) -> Result<Self, UnknownOp> {
        match number {
            0 => Ok(Op::Thing),
            1 => Ok(Op::Nothing),
            2 => Ok(Op::Prim),
            3 => Ok(Op::Within),
            4 => Ok(Op::And),
            5 => Ok(Op::All),
            6 => Ok(Op::AtLeast),
            7 => Ok(Op::AtMost),
            8 => Ok(Op::Entry),
            _ => Err(UnknownOp(number)),
        }
    }
}

impl From<Op> for u8 {
    ghost from_gives = { λ op number. number ≡ op_number op };

    fn from(op: Op) -> u8 {
        op as u8
    }
}
