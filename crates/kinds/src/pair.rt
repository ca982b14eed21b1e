// Two kinds side by side, such as a diameter and a seal.
ghost use Rattle.kinds.specs.Pairs.{pair_domain};

use crate::kind::Kind;

// A reading of a pair: one of each half. It is no restriction, so it is no `Pair`.
#[derive(Clone, Copy)]
pub struct Both<V, W> {
    pub first: V,
    pub second: W,
}

// A restriction on each of two readings. A pair of kinds is a kind, so that pairs nest.
#[derive(Clone, Copy)]
pub struct Pair<P, Q> {
    pub first: P,
    pub second: Q,
}

impl<P: Kind, Q: Kind> Kind for Pair<P, Q> {
    type Reading = Both<P::Reading, Q::Reading>;

    ghost domain = { pair_domain P.Kind.domain Q.Kind.domain };

    fn admits(&self, v: Both<P::Reading, Q::Reading>) -> bool {
        self.first.admits(v.first) && self.second.admits(v.second)
    }

    fn whole() -> Pair<P, Q> {
        Pair {
            first: P::whole(),
            second: Q::whole(),
        }
    }

    fn meet(self, other: Pair<P, Q>) -> Pair<P, Q> {
        Pair {
            first: self.first.meet(other.first),
            second: self.second.meet(other.second),
        }
    }

    // One empty half leaves no reading of the pair.
    fn is_empty(&self) -> bool {
        self.first.is_empty() || self.second.is_empty()
    }

    // An empty pair lies within any other, whatever its halves.
    fn within(&self, other: &Pair<P, Q>) -> bool {
        self.is_empty() || (self.first.within(&other.first) && self.second.within(&other.second))
    }

    fn some(&self) -> Both<P::Reading, Q::Reading> {
        let first = self.first.some();
        let second = self.second.some();
        Both { first, second }
    }

    // One half decides, and the other takes any reading that it admits.
    fn beyond(&self, other: &Pair<P, Q>) -> Both<P::Reading, Q::Reading> {
        if self.first.within(&other.first) {
            Both {
                first: self.first.some(),
                second: self.second.beyond(&other.second),
            }
        } else {
            Both {
                first: self.first.beyond(&other.first),
                second: self.second.some(),
            }
        }
    }
}
