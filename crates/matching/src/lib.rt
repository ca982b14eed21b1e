// Which bores take which shafts: comparing restrictions of any kind, and reading stock lists.
#![tactic(auto)]

pub mod entry;
pub mod verdict;
