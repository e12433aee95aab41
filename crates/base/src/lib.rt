// What all crates share: words about lists, document 01's refusals, insertion into an array that is kept in order, and search in one.
#![tactic(auto)]

pub mod inner;
pub mod insertion;
