// Why a call is declined, with the number and the detail by which it is reported.
ghost use Rattle.std.specs.Prelude.{◌≡◌};
ghost use Rattle.concepts.specs.Refusals.{number_of, detail_of};

// One of the two places that a call names.
#[derive(Clone, Copy, Debug, PartialEq, Eq)]
pub enum Named {
    First,
    Second,
}

#[derive(Clone, Copy, Debug, PartialEq, Eq)]
pub enum Refusal {
    // The place is not in the catalogue, or is held.
    Place,
    // There is no node, or there are more than 128.
    Length,
    // The op of this node is above 8.
    Op(u8),
    // A role, an atom or a count of this node is out of range.
    Field(u8),
    // An operand of this node is not a lower node.
    Operand(u8),
    // This node names a place that is not held.
    Entry(u8),
    // The description weighs more than 128.
    Weight,
    // Nothing can satisfy the description.
    Contradiction,
    // The entry at this place is satisfied by the same elements.
    Same(u8),
    // A place that the call names is not held.
    NotHeld(Named),
    // There are fewer than 256 groups to write to.
    Groups,
    // The table of groups is not well formed at this group.
    Table(u16),
    // The card can't be read.
    Card,
}

// Two numbers are reported of a refusal, so a conversion into one would not say which.
impl Refusal {
    // The number by which it is reported.
    pub fn number(&self) -> u8
        ensures value { result ≡ number_of self.now }
    {
        match self {
            Refusal::Place => 1,
            Refusal::Length => 2,
            Refusal::Op(_) => 3,
            Refusal::Field(_) => 4,
            Refusal::Operand(_) => 5,
            Refusal::Entry(_) => 6,
            Refusal::Weight => 7,
            Refusal::Contradiction => 8,
            Refusal::Same(_) => 9,
            Refusal::NotHeld(_) => 10,
            Refusal::Groups => 11,
            Refusal::Table(_) => 12,
            Refusal::Card => 13,
        }
    }

    // What is reported beside the number: a node, a place, 1 or 2, a group, or else 0.
    pub fn detail(&self) -> u16
        ensures value { result ≡ detail_of self.now }
    {
        match self {
            Refusal::Op(node)
            | Refusal::Field(node)
            | Refusal::Operand(node)
            | Refusal::Entry(node) => u16::from(*node),
            Refusal::Same(place) => u16::from(*place),
            Refusal::NotHeld(Named::First) => 1,
            Refusal::NotHeld(Named::Second) => 2,
            Refusal::Table(group) => *group,
            _ => 0,
        }
    }
}
