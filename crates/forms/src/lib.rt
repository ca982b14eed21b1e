// Normal forms of concepts: what a description asks at each role path, as a table of rows.
#![tactic(auto)]

pub mod build;
mod find;
mod label;
mod lay;
mod look;
mod settle;
pub mod sheets;
mod source;
mod strip;
