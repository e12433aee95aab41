// The call for a rule body over lent tables.
ghost use Rattle.table.specs.Contents.{contents};
ghost use Rattle.std.specs.Prelude.{◌≡◌, Err, cond, eqb};
ghost use Rattle.planner.specs.Short.{ShortLine};
ghost use Rattle.operation.specs.Rows.{row_line};
ghost use Rattle.body.specs.Body.{body_line, body_line_of};
ghost use Rattle.c_calls.specs.Given.{given_tested};
ghost use Rattle.c_calls.specs.Bodies.{words_first, MarksTold, marks_in, ToldBody, BodyCalledIn};

use crate::given::{GivenRefusal, scope_of};
use body::lines::is_body;
use body::{BodyRefusal, plan_body};
use operation::inner::{put_word, tell};
use operation::row::{Row, refusal_row, row_from};
use planner::Plan;
use planner::buffer::clear;
use scope::{ByteScope, MarkOutside, Scope};
use table::limits::within_limits;
use table::tables::Tables;

// 7, then 37.
fn words_first(scheduler: u32, lines: &[u32]) -> Result<(), GivenRefusal>
    ensures { given_tested result ≡ words_first scheduler lines.now }
{
    if 1 < scheduler {
        return Err(GivenRefusal::LayoutBroken);
    }
    if !is_body(lines) {
        return Err(GivenRefusal::NotABody);
    }
    Ok(())
}

// The scope that the marks were made into, or 1 or 2.
fn marks_first(tables: &Tables<'_>, made: Result<Scope, MarkOutside>) -> Result<Scope, GivenRefusal>
    ensures { MarksTold (contents tables.now) made result }
{
    if !within_limits(tables) {
        return Err(GivenRefusal::OverLimit);
    }
    Ok(made?)
}

// The marks of the scope, as far as there is space.
fn put_marks(marks: &mut [u8], scope: Scope)
    ensures { marks.new ≡ marks_in scope marks.old }
{
    let bytes = ByteScope::from(scope);
    let all = bytes.marks;
    for i in 0..128 {
        if marks.len() <= i {
            return;
        }
        marks[i] = all[i];
    }
}

// They are written after an accepted body, whose number is 0.
fn keep_marks(marks: &mut [u8], number: u64, scope: Scope)
    ensures { marks.new ≡ cond (eqb number 0) (marks_in scope marks.old) marks.old }
{
    if number != 0 {
        return;
    }
    put_marks(marks, scope);
}

// The numbers of a body's answer, and its line.
#[derive(Clone, Copy)]
struct BodyRow {
    pub row: Row,
    pub line: u32,
}

fn refused_row(refusal: BodyRefusal) -> BodyRow
    ensures { body_line (row_line result.row) result.line ≡ body_line_of (Err refusal) }
{
    match refusal {
        BodyRefusal::NotABody => BodyRow {
            row: row_from(37, 0, 0, 0),
            line: 0,
        },
        BodyRefusal::LineRefused { line, refusal } => BodyRow {
            row: refusal_row(refusal),
            line,
        },
        BodyRefusal::NameNotReady { line, name } => BodyRow {
            row: row_from(38, name as u64, 0, 0),
            line,
        },
    }
}

fn body_row(answer: Result<Plan, BodyRefusal>) -> BodyRow
    ensures { body_line (row_line result.row) result.line ≡ body_line_of answer }
{
    match answer {
        Ok(plan) => BodyRow {
            row: row_from(0, plan.form as u64, plan.side as u64, plan.entries as u64),
            line: 0,
        },
        Err(refusal) => refused_row(refusal),
    }
}

// Puts the five numbers into the lent words and returns the first.
fn tell_body(answer: &mut [u32], row: Row, line: u32) -> u32
    requires { ShortLine (row_line row) }
    ensures { ToldBody (body_line (row_line row) line) answer.old answer.new result }
{
    let number = tell(answer, row);
    put_word(answer, 4, line);
    number
}

// Plans a body's lines in turn; after an accepted body the marks are those of the scope returned.
pub fn teluddru_plan_body(
    tables: &Tables<'_>,
    marks: &mut [u8],
    scheduler: u32,
    lines: &[u32],
    plan: &mut [u32],
    answer: &mut [u32],
) -> u32
    ensures { BodyCalledIn marks plan answer (contents tables.now) scheduler lines result }
{
    if let Err(refused) = words_first(scheduler, lines) {
        clear(plan);
        return tell_body(answer, refused.row(), 0);
    }
    let scope = match marks_first(tables, scope_of(marks, scheduler)) {
        Ok(scope) => scope,
        Err(refused) => {
            clear(plan);
            return tell_body(answer, refused.row(), 1);
        }
    };
    let done = plan_body(tables, scope, lines, plan);
    let told = body_row(done.answer);
    keep_marks(marks, told.row.number, done.scope);
    tell_body(answer, told.row, told.line)
}
