// Each asks for a checked table.
pub mod admitted;
pub mod equality;
pub mod fields;
