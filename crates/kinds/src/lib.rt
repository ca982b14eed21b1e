// Kinds of reading: what a restriction admits, the seven answers of a kind and their laws, and three kinds.
#![tactic(auto)]

pub mod choice;
pub mod kind;
pub mod pair;
pub mod span;
