// What is expected of the definitions, and holds: each function's contract is the theorem.
ghost use Rattle.concepts.specs.Theorems.{ConceptFacts, TableFacts};

use kinds::kind::Kind;

// Of satisfaction and subsumption, over every kind.
pub fn concepts_stand<K: Kind>()
    ensures facts { ConceptFacts K.Kind.domain }
{
    // Nothing is computed.
}

// Of the checks, weights and concepts of tables of nodes, over all restrictions.
pub fn tables_stand<K>()
    ensures facts { TableFacts K }
{
    // Nothing is computed.
}
