// Tables of rows and tables of groups: what a description asks along role paths, and what models are made of.
#![tactic(auto)]

pub mod bounds;
pub mod census;
pub mod facts;
pub mod form;
pub mod group;
pub mod hung;
pub mod row;
