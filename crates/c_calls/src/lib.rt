// The calls for a C host over lent tables: marks as bytes, all else as numbers, the answer's four numbers in lent words.
#![tactic(auto)]

mod answer;
pub mod bodies;
pub mod examples;
pub mod faults;
mod given;
pub mod misses;
pub mod naming;
pub mod planning;
pub mod reporting;
pub mod running;
pub mod tolerating;
pub mod version;
