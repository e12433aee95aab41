// Values in a table: which nodes are values, the value under a key, equality.
#![tactic(auto)]

pub mod inner;
