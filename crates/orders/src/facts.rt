// What is expected of reductions, and holds: the contract is the theorem.
ghost use Rattle.std.specs.Prelude.{◌≡◌, Bool, true};
ghost use Rattle.orders.specs.Ledgers.{Preorder};
ghost use Rattle.orders.specs.Theorems.{ReductionFacts};

// Of every preorder, given by a test, on entries of any type.
pub fn reductions_stand<E>()
    ensures facts { (le : E → E → Bool) → Preorder (λ e f. le e f ≡ true) → ReductionFacts (λ e f. le e f ≡ true) }
{
    // Nothing is computed.
}
