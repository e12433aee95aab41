// Carrying the plan of a pattern out on a value.
#![tactic(auto)]

pub mod inner;
mod links;
