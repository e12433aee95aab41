// A whole rule body: its lines planned in turn from one scope, and its names looked for.
#![tactic(auto)]

mod binding;
pub mod lines;
mod ready;
mod sides;

ghost use Rattle.table.specs.Contents.{contents};
ghost use Rattle.std.specs.Prelude.{◌≡◌, true};
ghost use Rattle.body.specs.Lines.{is_body};
ghost use Rattle.body.specs.Body.{body_outcome, BodyAnsweredIn};
ghost use Rattle.body.specs.code.Post.{StatesOf, PlanHeld, SettledIn, LineDoneIn};

use crate::binding::bind_plan;
use crate::lines::{LINE_WORDS, is_body, line_at};
use crate::ready::line_unready;
use operation::{Operation, REGO_V0};
use planner::buffer::clear;
use planner::context::name_states;
use planner::{Plan, PlanRefusal};
use scope::{Scope, ScopingMode};
use table::tables::Tables;

// Why a body is refused. A line is counted from 1.
#[derive(Clone, Copy)]
pub enum BodyRefusal {
    NotABody,
    LineRefused { line: u32, refusal: PlanRefusal },
    NameNotReady { line: u32, name: u32 },
}

// The last line's plan or the refusal, beside the scope afterwards.
#[derive(Clone, Copy)]
pub struct BodyPlanned {
    pub answer: Result<Plan, BodyRefusal>,
    pub scope: Scope,
}

// A line's plan, and the scope with what it binds.
#[derive(Clone, Copy)]
struct LinePlanned {
    pub plan: Plan,
    pub scope: Scope,
}

// A line that is planned into the buffer: a name that is not ready refuses it, or what its plan binds is bound in the scope.
fn settle_line(
    tables: &Tables<'_>,
    scope: Scope,
    states: &mut [u8; 128],
    operation: Operation,
    line: u32,
    planned: Plan,
    plan: &mut [u32],
) -> Result<LinePlanned, BodyRefusal>
    requires { PlanHeld (contents tables.now) scope states.old plan.old planned.entries }
    ensures { SettledIn plan states.new (contents tables.now) scope operation line planned result }
{
    let Plan {
        form,
        side,
        entries,
    } = planned;
    let name = line_unready(tables, scope, *states, operation, form, side, plan, entries);
    if name != 0 {
        clear(plan);
        return Err(BodyRefusal::NameNotReady { line, name });
    }
    let next = bind_plan(tables.nodes, scope, states, plan, entries);
    Ok(LinePlanned {
        plan: planned,
        scope: next,
    })
}

// One line: its own refusals come before a name that is not ready.
fn plan_line(
    tables: &Tables<'_>,
    scope: Scope,
    states: &mut [u8; 128],
    operation: Operation,
    line: u32,
    plan: &mut [u32],
) -> Result<LinePlanned, BodyRefusal>
    requires { StatesOf (contents tables.now) scope states.old }
    ensures { LineDoneIn plan states.new (contents tables.now) scope operation line result }
{
    match operation::plan(tables, scope, operation, REGO_V0, plan) {
        Ok(planned) => settle_line(tables, scope, states, operation, line, planned, plan),
        Err(refusal) => Err(BodyRefusal::LineRefused { line, refusal }),
    }
}

// The lines of a body in turn, up to one that is refused.
fn plan_lines(tables: &Tables<'_>, scope: Scope, lines: &[u32], plan: &mut [u32]) -> BodyPlanned
    requires { is_body lines.now ≡ true }
    ensures { BodyAnsweredIn plan scope (body_outcome (contents tables.now) scope lines.now plan.old) result }
{
    let count = lines.len() / LINE_WORDS;
    let mut here = scope;
    let mut states = name_states(tables.names, tables.text, scope, ScopingMode::RespectParent);
    let mut answer = Err(BodyRefusal::NotABody);
    for i in 0..count {
        let operation = line_at(lines, i);
        match plan_line(tables, here, &mut states, operation, (i + 1) as u32, plan) {
            Ok(planned) => {
                answer = Ok(planned.plan);
                here = planned.scope;
            }
            Err(refusal) => {
                return BodyPlanned {
                    answer: Err(refusal),
                    scope,
                };
            }
        }
    }
    BodyPlanned {
        answer,
        scope: here,
    }
}

// Plans a body's lines in turn. The plan buffer then holds the last line's plan; a refusal leaves it all zeros and returns the scope as given.
pub fn plan_body(tables: &Tables<'_>, scope: Scope, lines: &[u32], plan: &mut [u32]) -> BodyPlanned
    ensures { BodyAnsweredIn plan scope (body_outcome (contents tables.now) scope lines.now plan.old) result }
{
    if is_body(lines) {
        return plan_lines(tables, scope, lines, plan);
    }
    clear(plan);
    BodyPlanned {
        answer: Err(BodyRefusal::NotABody),
        scope,
    }
}
