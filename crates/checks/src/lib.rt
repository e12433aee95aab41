// A pattern held against a literal expression (utils.rs).
#![tactic(auto)]

ghost use Rattle.std.specs.Prelude.{◌≡◌};
ghost use Rattle.checks.specs.Joining.{is_mismatch};

pub mod inner;
mod joining;
mod partners;
mod texts;

// Present, as in the Rust: the first unknown item ends an array or object as unknown. Careful: what follows it is looked at.
#[derive(Clone, Copy)]
pub enum Reading {
    Present,
    Careful,
}

// Mismatches carry the value node, then the two counts or the pattern object's node.
#[derive(Clone, Copy)]
pub enum LiteralStructureCheck {
    Match,
    Unknown,
    ArrayMismatch {
        value: u32,
        expected: u32,
        actual: u32,
    },
    ObjectMismatch {
        value: u32,
        pattern: u32,
    },
}

pub fn is_mismatch(check: LiteralStructureCheck) -> bool
    ensures { result ≡ is_mismatch check }
{
    match check {
        LiteralStructureCheck::Match => false,
        LiteralStructureCheck::Unknown => false,
        LiteralStructureCheck::ArrayMismatch {
            value,
            expected,
            actual,
        } => true,
        LiteralStructureCheck::ObjectMismatch { value, pattern } => true,
    }
}
