// For sibling crates alone: what they call has conditions.
pub mod binary_search;
