// Subsumption of forms: whether all that meets one meets another, and a model that shows it where not.
#![tactic(auto)]

pub mod compare;
mod countermodel;
mod decide;
mod demand;
mod gap;
pub mod judge;
mod plan;
