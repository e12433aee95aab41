// Plans of patterns (destructuring.rs).
ghost use Rattle.table.specs.Contents.{contents};
ghost use Rattle.planner.specs.code.Post.{GoodRoot};
ghost use Rattle.planner.specs.Operations.{pattern_outcome, AnsweredIn};
ghost use Rattle.planner.specs.code.Validation.{planned_if, outcome_if};

use crate::buffer::{clear, close};
use crate::inner::destructuring::plan_pattern;
use crate::inner::parameters::validate_pattern_bindings;
use crate::{Plan, PlanRefusal};
use scope::{Scope, ScopingMode};
use table::check;
use table::reading::is_node;
use table::tables::Tables;

// A pattern of a good table: its plan in the lent buffer, or, if it is validated, its first name that is defined already.
fn deliver_pattern(
    tables: &Tables<'_>,
    scope: Scope,
    scoping: ScopingMode,
    validate: bool,
    root: u32,
    plan: &mut [u32],
) -> Result<Plan, PlanRefusal>
    requires { GoodRoot (contents tables.now) root }
    ensures { AnsweredIn plan (planned_if validate (contents tables.now) scope scoping root) result }
{
    let mut binders = [0u32; 128];
    let planned = plan_pattern(tables, scope, scoping, root, &mut binders, plan, 0);
    let count = planned.next;
    if !validate {
        return close(plan, 0, count);
    }
    let name = validate_pattern_bindings(tables, scope, &binders, root);
    if name != 0 {
        clear(plan);
        return Err(PlanRefusal::VariableAlreadyDefined { name });
    }
    close(plan, 0, count)
}

// The table check, the root, and the plan of a pattern.
pub(crate) fn create_plan(
    tables: &Tables<'_>,
    scope: Scope,
    scoping: ScopingMode,
    validate: bool,
    root: u32,
    plan: &mut [u32],
) -> Result<Plan, PlanRefusal>
    ensures { AnsweredIn plan (outcome_if validate (contents tables.now) scope scoping root) result }
{
    let checked = check(tables, scope);
    if let Err(refused) = checked {
        clear(plan);
        return Err(refused.into());
    }
    if !is_node(tables.nodes, root) {
        clear(plan);
        return Err(PlanRefusal::RootOutside);
    }
    deliver_pattern(tables, scope, scoping, validate, root, plan)
}

// The pattern call: the plan of a pattern in the lent buffer.
pub fn create_destructuring_plan(
    tables: &Tables<'_>,
    scope: Scope,
    scoping: ScopingMode,
    root: u32,
    plan: &mut [u32],
) -> Result<Plan, PlanRefusal>
    ensures { AnsweredIn plan (pattern_outcome (contents tables.now) scope scoping root) result }
{
    create_plan(tables, scope, scoping, false, root, plan)
}
