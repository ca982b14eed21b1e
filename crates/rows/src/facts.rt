// What is expected of the definitions, and holds: the function's contract is the theorem.
ghost use Rattle.rows.specs.Theorems.{RowFacts};

use kinds::kind::Kind;

// Of well-formed rows and of tables of groups, over every kind.
pub fn rows_stand<K: Kind>()
    ensures facts { RowFacts K.Kind.domain }
{
    // Nothing is computed.
}
