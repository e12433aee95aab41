// What a C host gives beside the tables: marks as bytes, the operation as numbers.
ghost use Rattle.table.specs.Contents.{contents};
ghost use Rattle.std.specs.Prelude.{◌≡◌, get_or};
ghost use Rattle.base.specs.Refusal.{refusal_line};
ghost use Rattle.scope.specs.Bytes.{ConvertedFrom};
ghost use Rattle.operation.specs.Rows.{row_line};
ghost use Rattle.c_calls.specs.Given.{marks_of, byte_scope_of, given_scope, pattern_numbers, given_refused, GivenTold};

use operation::numbers::{OperationNumbers, are_listed};
use operation::row::{Row, row_from};
use scope::{ByteScope, MarkOutside, Scope};
use table::limits::within_limits;
use table::tables::Tables;

fn mark_at(marks: &[u8], i: usize) -> u8
    ensures { result ≡ get_or marks.now i 0 }
{
    if i < marks.len() {
        return marks[i];
    }
    0
}

fn marks_of(marks: &[u8]) -> [u8; 128]
    ensures { result ≡ marks_of marks.now }
{
    let mut all = [0u8; 128];
    for i in 0..128 {
        all[i] = mark_at(marks, i);
    }
    all
}

// `_` is told by its bytes: the scope needs no number of it.
pub(crate) fn scope_of(marks: &[u8], scheduler: u32) -> Result<Scope, MarkOutside>
    ensures { ConvertedFrom (byte_scope_of marks.now scheduler) result }
{
    Scope::try_from(ByteScope {
        marks: marks_of(marks),
        underscore: 0,
        scheduler: scheduler == 1,
    })
}

// A refused scope is never asked: an empty one stands in its place.
pub(crate) fn given_scope(made: Result<Scope, MarkOutside>) -> Scope
    ensures { result ≡ given_scope made }
{
    made.unwrap_or(Scope::new(0, false))
}

// Run and the names report are of a pattern, whose operation is 1.
pub(crate) fn pattern_numbers(scheduler: u32, scoping: u32, pattern: u32) -> OperationNumbers
    ensures { result ≡ pattern_numbers scheduler scoping pattern }
{
    OperationNumbers {
        number: 1,
        scheduler,
        scoping,
        first: pattern,
        second: 0,
        key: 0,
    }
}

// What is refused before an operation: 7, 37 of a rule body, then 1 and 2.
#[derive(Clone, Copy)]
pub(crate) enum GivenRefusal {
    LayoutBroken,
    NotABody,
    OverLimit,
    BreaksRules,
}

impl From<MarkOutside> for GivenRefusal {
    ghost use Rattle.c_calls.specs.declared.given.GivenRefusal.TheVariants.{BreaksRules};

    ghost from_gives = { λ mark refused. refused ≡ BreaksRules };

    fn from(mark: MarkOutside) -> GivenRefusal {
        GivenRefusal::BreaksRules
    }
}

impl GivenRefusal {
    fn number(self) -> u64
        ensures { result ≡ (given_refused self).number }
    {
        match self {
            GivenRefusal::LayoutBroken => 7,
            GivenRefusal::NotABody => 37,
            GivenRefusal::OverLimit => 1,
            GivenRefusal::BreaksRules => 2,
        }
    }

    // None of them has a place or counts.
    pub(crate) fn row(self) -> Row
        ensures { row_line result ≡ refusal_line (given_refused self) }
    {
        row_from(self.number(), 0, 0, 0)
    }
}

// The scope that the marks were made into, or the refusal that comes before the operation's own.
pub(crate) fn given(
    tables: &Tables<'_>,
    made: Result<Scope, MarkOutside>,
    asked: OperationNumbers,
) -> Result<Scope, GivenRefusal>
    ensures { GivenTold (contents tables.now) made asked result }
{
    if !are_listed(asked) {
        return Err(GivenRefusal::LayoutBroken);
    }
    if !within_limits(tables) {
        return Err(GivenRefusal::OverLimit);
    }
    Ok(made?)
}
