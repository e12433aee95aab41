// The checks of a run, and the values of names by their numbers. All but the last ask for a checked table.
pub mod checks;
pub mod names;
pub mod refusals;
