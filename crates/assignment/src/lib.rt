// Assignments over planned patterns (assignment.rs).
#![tactic(auto)]

pub mod assignment;
mod entries;
mod flatten;
mod judge;
mod keys;
mod preview;

#[derive(Clone, Copy)]
pub enum AssignOp {
    ColEq,
    Eq,
}
