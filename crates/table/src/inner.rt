// Parts of the check that answer for one node, for the crates above alone.
pub mod depth;
pub mod node;
