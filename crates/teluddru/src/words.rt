// The calls over names in pairs of words.
pub mod bodies;
pub mod examples;
pub mod plans;
pub mod reports;
pub mod runs;
pub mod tolerances;
