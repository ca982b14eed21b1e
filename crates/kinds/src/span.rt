// Spans of whole numbers, such as a diameter in hundredths of a millimetre.
ghost use Rattle.kinds.specs.Domain.{Meet};
ghost use Rattle.kinds.specs.Spans.{span_domain, Ends};

use crate::kind::Kind;

// The numbers from `low` to `high`, both included; none where `low` is above `high`.
#[derive(Clone, Copy)]
pub struct Span {
    pub low: i32,
    pub high: i32,
}

impl Kind for Span {
    type Reading = i32;

    ghost domain = { span_domain };

    fn admits(&self, v: i32) -> bool {
        self.low <= v && v <= self.high
    }

    fn whole() -> Span {
        Span {
            low: i32::MIN,
            high: i32::MAX,
        }
    }

    fn meet(self, other: Span) -> Span
        ensures law { Meet span_domain self other result }
        ensures ends { Ends self other result }
    {
        Span {
            low: self.low.max(other.low),
            high: self.high.min(other.high),
        }
    }

    fn is_empty(&self) -> bool {
        self.high < self.low
    }

    fn within(&self, other: &Span) -> bool {
        self.is_empty() || (other.low <= self.low && self.high <= other.high)
    }

    fn some(&self) -> i32 {
        self.low
    }

    // What a span admits beyond another lies at one of its ends.
    fn beyond(&self, other: &Span) -> i32 {
        if self.low < other.low {
            self.low
        } else {
            self.high
        }
    }
}
