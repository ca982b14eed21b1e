// The numbers of a row.
ghost use Rattle.std.specs.Prelude.{◌≡◌, true, is_some, IfSome, None as NoBound, Decides};
ghost use Rattle.rows.specs.Numbers.{Under, Allows, ClosesOff, Beyond, in_order};

use crate::row::Row;

// How many fillers at least, and at most; no upper number is no bound. Some number is always allowed.
#[derive(Clone, Copy)]
pub struct Bounds {
    lower: u16,
    upper: Option<u16>,
    ghost ordered: { in_order lower upper ≡ true },
}

impl Bounds {
    // The numbers of a row, unless the lower one is above the upper one; that is the only reason, and needs no error type.
    pub fn of<K>(row: &Row<K>) -> Option<Bounds>
        ensures answer { Decides (is_some result) (Under row.now.lower row.now.upper) }
        ensures numbers { IfSome result (λ b. (b.lower ≡ row.now.lower) × (b.upper ≡ row.now.upper)) }
    {
        if row.upper.is_some_and(|most| row.lower > most) {
            None
        } else {
            Some(Bounds::of_ordered(row))
        }
    }

    // The numbers of a row whose lower one is not above its upper one.
    pub(crate) fn of_ordered<K>(row: &Row<K>) -> Bounds
        requires { Under row.now.lower row.now.upper }
        ensures numbers { (result.lower ≡ row.now.lower) × (result.upper ≡ row.now.upper) }
    {
        Bounds {
            lower: row.lower,
            upper: row.upper,
        }
    }

    // What silence about a role allows: any number of fillers.
    pub fn silent() -> Bounds
        ensures value { (result.lower ≡ 0) × (result.upper ≡ NoBound) }
    {
        Bounds {
            lower: 0,
            upper: None,
        }
    }

    // Whether so many fillers are allowed.
    pub fn allows(&self, count: u16) -> bool
        ensures value { Decides result (Allows self.now.lower self.now.upper count) }
    {
        self.lower <= count && self.upper.is_none_or(|most| count <= most)
    }

    // Whether no filler is allowed.
    pub fn is_closed(&self) -> bool
        ensures value { Decides result (ClosesOff self.now.lower self.now.upper) }
    {
        self.upper == Some(0)
    }

    // The least number of fillers that these allow and `other` does not, if there is any.
    pub fn beyond(&self, other: &Bounds) -> Option<u32>
        ensures value { Beyond self.now.lower self.now.upper other.now.lower other.now.upper result }
    {
        if self.lower < other.lower {
            return Some(u32::from(self.lower));
        }
        let most = other.upper?;
        let more = u32::from(self.lower).max(u32::from(most) + 1);
        self.upper
            .is_none_or(|own| more <= u32::from(own))
            .then_some(more)
    }
}
