// Sets of numbers below 64, as the bits of a `u64`: bit k, worth 2^k, stands for k.
#![tactic(auto)]

ghost use Rattle.std.specs.Prelude.{◌≡◌, Decides};
ghost use Rattle.masks.specs.Masks.{has as has_bit, Common, Joined, Lacking, None as Nothing, Subset, Member, Full, Single};

// Whether `k` is in the set.
pub fn has(set: u64, k: u8) -> bool
    ensures { result ≡ has_bit set k }
{
    k < 64 && (set >> k) % 2 == 1
}

// The set of all numbers below 64.
pub fn full() -> u64
    ensures { Full result }
{
    u64::MAX
}

// The set of `k` alone; of nothing where `k` is above 63.
pub fn single(k: u8) -> u64
    ensures { Single k result }
{
    if k < 64 { 1 << k } else { 0 }
}

// What is in both.
pub fn common(a: u64, b: u64) -> u64
    ensures { Common a b result }
{
    a & b
}

// What is in either.
pub fn joined(a: u64, b: u64) -> u64
    ensures { Joined a b result }
{
    a | b
}

// What is in the first and not in the second.
pub fn lacking(a: u64, b: u64) -> u64
    ensures { Lacking a b result }
{
    a & !b
}

// Whether nothing is in the set.
pub fn is_none(a: u64) -> bool
    ensures { Decides result (Nothing a) }
{
    a == 0
}

// Whether all of the first is in the second.
pub fn is_subset(a: u64, b: u64) -> bool
    ensures { Decides result (Subset a b) }
{
    is_none(lacking(a, b))
}

// A number in the set; any number where there is none.
pub fn member(a: u64) -> u8
    ensures { Member a result }
{
    // At most 64, so the cast cuts nothing off; `try_from` would bring in a failure that cannot be.
    a.trailing_zeros() as u8
}
