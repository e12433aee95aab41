// What asks for a checked table: for the operations of this crate and its siblings.
pub mod destructuring;
pub mod fields;
pub mod names;
pub mod parameters;
mod plans;
