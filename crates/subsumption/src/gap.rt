// What the second form asks for at a row and the first does not give.
ghost use Rattle.std.specs.Prelude.{◌≡◌, ◌≤◌};
ghost use Rattle.subsumption.specs.Slots.{amount};

// What the first form has at the path of a row of the second.
#[derive(Clone, Copy)]
pub enum Match {
    // This row.
    At(u8),
    // No row, so that nothing is said there.
    Absent,
    // Nothing, since it allows no filler on the way: what is asked there is met.
    Passed,
}

// What is asked and not given.
#[derive(Clone, Copy)]
pub enum Need {
    // So many fillers are allowed by the first form and not by the second.
    Count(u32),
    // An atom.
    Atoms,
    // A narrower restriction.
    Reading,
}

// What is needed, and the match of the row that needs it.
#[derive(Clone, Copy)]
pub struct Gap {
    pub here: Match,
    pub need: Need,
}

// The row of the second form that asks for more, and what it needs.
#[derive(Clone, Copy)]
pub struct Short {
    pub row: usize,
    pub need: Need,
}

impl Need {
    // How many elements show it.
    pub(crate) fn amount(&self) -> u16
        ensures { amount self.now ≤ 1000 → result ≡ amount self.now }
    {
        match self {
            Need::Count(count) => u16::try_from(*count).unwrap_or(u16::MAX),
            _ => 1,
        }
    }
}

impl Gap {
    // What the row needs that has this gap.
    pub(crate) fn short(&self, row: usize) -> Short
        ensures { (result.row ≡ row) × (result.need ≡ self.now.need) }
    {
        Short {
            row,
            need: self.need,
        }
    }
}
