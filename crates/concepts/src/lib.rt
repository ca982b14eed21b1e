// The description language: node tables as they are sent, their checks and weights, and what they mean.
#![tactic(auto)]

pub mod description;
pub mod facts;
pub mod node;
pub mod op;
pub mod refusal;
