// Sets of codes, such as the seals that a bore takes.
ghost use Rattle.kinds.specs.Choices.{choice_domain};

use crate::kind::Kind;
use masks::{common, full, has, is_none, is_subset, lacking, member};

// A code. The readings are 0 to 63.
#[derive(Clone, Copy)]
pub struct Code(pub u8);

// A set of codes: bit k, worth 2^k, admits the code k.
#[derive(Clone, Copy)]
pub struct Choice {
    pub bits: u64,
}

impl Kind for Choice {
    type Reading = Code;

    ghost domain = { choice_domain };

    fn admits(&self, v: Code) -> bool {
        has(self.bits, v.0)
    }

    fn whole() -> Choice {
        Choice { bits: full() }
    }

    fn meet(self, other: Choice) -> Choice {
        Choice {
            bits: common(self.bits, other.bits),
        }
    }

    fn is_empty(&self) -> bool {
        is_none(self.bits)
    }

    fn within(&self, other: &Choice) -> bool {
        is_subset(self.bits, other.bits)
    }

    fn some(&self) -> Code {
        Code(member(self.bits))
    }

    fn beyond(&self, other: &Choice) -> Code {
        Code(member(lacking(self.bits, other.bits)))
    }
}
