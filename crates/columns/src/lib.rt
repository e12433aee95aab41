// Decimal columns: a number without leading zeros, right-justified with blanks.
#![tactic(auto)]

mod decimal;
pub mod read;
pub mod write;

// A number by sign and size. Below is 1 for a number below zero, else 0.
#[derive(Clone, Copy)]
pub struct SignedNumber {
    pub below: u64,
    pub size: u64,
}
