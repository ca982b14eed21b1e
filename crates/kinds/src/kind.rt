// What a kind of reading answers, and the laws that its answers keep.
ghost use Rattle.std.specs.Prelude.{◌≡◌, Decides};
ghost use Rattle.kinds.specs.Domain.{Domain, Whole, Meet, Empty, Within, Member, Separates};

// A kind of reading: `Self` is a restriction, which admits a set of readings.
// Code above a kind relies on these laws and on nothing else about it.
pub trait Kind: Copy {
    // The values that readings are among. A value need not be a reading.
    type Reading: Copy;

    // Which values are readings, and which of them a restriction admits.
    ghost domain: { Domain Self Self.Reading };

    // Whether the restriction admits `v`.
    fn admits(&self, v: Self::Reading) -> bool
        ensures law { result ≡ domain.admits self.now v };

    // The restriction that admits every reading.
    fn whole() -> Self
        ensures law { Whole domain result };

    // The restriction that admits what both admit.
    fn meet(self, other: Self) -> Self
        ensures law { Meet domain self other result };

    // Whether it admits nothing.
    fn is_empty(&self) -> bool
        ensures law { Decides result (Empty domain self.now) };

    // Whether `other` admits all that it admits.
    fn within(&self, other: &Self) -> bool
        ensures law { Decides result (Within domain self.now other.now) };

    // A reading that it admits; any value where it is empty.
    fn some(&self) -> Self::Reading
        ensures law { Member domain self.now result };

    // A reading that it admits and `other` does not; any value where there is none.
    fn beyond(&self, other: &Self) -> Self::Reading
        ensures law { Separates domain self.now other.now result };
}
