// Checks of several items.
ghost use Rattle.std.specs.Prelude.{◌≡◌, [], ◌∷◌};
ghost use Rattle.checks.specs.Joining.{joined};
ghost use Rattle.checks.specs.declared.LiteralStructureCheck.TheVariants.{Unknown};
ghost use Rattle.checks.specs.code.Joins.{is_match, is_settled, end_after, NoFieldYet, FieldTaken};

use crate::{LiteralStructureCheck, Reading, is_mismatch};

// What an object's fields come to so far; fields at places from `end` on no longer count.
#[derive(Clone, Copy)]
pub(crate) struct FieldsSoFar {
    pub check: LiteralStructureCheck,
    pub end: usize,
}

// An item after an unknown one.
fn after_unknown(reading: Reading, check: LiteralStructureCheck) -> LiteralStructureCheck
    ensures { result ≡ joined reading (Unknown ∷ (check ∷ [])) }
{
    match reading {
        Reading::Present => LiteralStructureCheck::Unknown,
        Reading::Careful => {
            if is_mismatch(check) {
                return check;
            }
            LiteralStructureCheck::Unknown
        }
    }
}

// One item more.
pub(crate) fn join(
    reading: Reading,
    before: LiteralStructureCheck,
    check: LiteralStructureCheck,
) -> LiteralStructureCheck
    ensures { result ≡ joined reading (before ∷ (check ∷ [])) }
{
    match before {
        LiteralStructureCheck::Match => check,
        LiteralStructureCheck::Unknown => after_unknown(reading, check),
        LiteralStructureCheck::ArrayMismatch {
            value,
            expected,
            actual,
        } => before,
        LiteralStructureCheck::ObjectMismatch { value, pattern } => before,
    }
}

fn is_match(check: LiteralStructureCheck) -> bool
    ensures { result ≡ is_match check }
{
    match check {
        LiteralStructureCheck::Match => true,
        LiteralStructureCheck::Unknown => false,
        LiteralStructureCheck::ArrayMismatch {
            value,
            expected,
            actual,
        } => false,
        LiteralStructureCheck::ObjectMismatch { value, pattern } => false,
    }
}

// Can no later item change it?
pub(crate) fn is_settled(reading: Reading, check: LiteralStructureCheck) -> bool
    ensures { result ≡ is_settled reading check }
{
    match reading {
        Reading::Present => !is_match(check),
        Reading::Careful => is_mismatch(check),
    }
}

// From which place on no field counts, after one at a place that no later item changes: in the present reading none at all does.
fn end_after(reading: Reading, place: usize) -> usize
    ensures { result ≡ end_after reading place }
{
    match reading {
        Reading::Present => 0,
        Reading::Careful => place,
    }
}

// Before the first field: a pattern's field without a partner, or under a computed key, is unknown.
pub(crate) fn no_field_yet(paired: bool, literals: usize, total: usize) -> FieldsSoFar
    ensures { NoFieldYet paired literals total result }
{
    if literals < total {
        return FieldsSoFar {
            check: LiteralStructureCheck::Unknown,
            end: literals,
        };
    }
    if paired {
        return FieldsSoFar {
            check: LiteralStructureCheck::Match,
            end: literals,
        };
    }
    FieldsSoFar {
        check: LiteralStructureCheck::Unknown,
        end: literals,
    }
}

// One field more, at a place before the end.
pub(crate) fn with_field(
    reading: Reading,
    before: FieldsSoFar,
    place: usize,
    check: LiteralStructureCheck,
) -> FieldsSoFar
    ensures { FieldTaken reading before place check result }
{
    let known = before.check;
    let end = before.end;
    let joined = join(reading, check, known);
    if is_settled(reading, check) {
        return FieldsSoFar {
            check: joined,
            end: end_after(reading, place),
        };
    }
    FieldsSoFar { check: joined, end }
}
