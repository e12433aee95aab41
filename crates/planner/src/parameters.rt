// Plans of loop indices and function parameters (parameters.rs).
ghost use Rattle.table.specs.Contents.{contents};
ghost use Rattle.planner.specs.Operations.{index_outcome, parameter_outcome, AnsweredIn};

use crate::destructuring::{create_destructuring_plan, create_plan};
use crate::{Plan, PlanRefusal};
use scope::{Scope, ScopingMode};
use table::tables::Tables;

// The loop index call: its plan respects the parent scope.
pub fn create_loop_index_binding_plan(
    tables: &Tables<'_>,
    scope: Scope,
    root: u32,
    plan: &mut [u32],
) -> Result<Plan, PlanRefusal>
    ensures { AnsweredIn plan (index_outcome (contents tables.now) scope root) result }
{
    create_destructuring_plan(tables, scope, ScopingMode::RespectParent, root, plan)
}

// The parameter call: only AllowShadowing parameters are validated.
pub fn create_parameter_binding_plan(
    tables: &Tables<'_>,
    scope: Scope,
    scoping: ScopingMode,
    root: u32,
    plan: &mut [u32],
) -> Result<Plan, PlanRefusal>
    ensures { AnsweredIn plan (parameter_outcome (contents tables.now) scope scoping root) result }
{
    match scoping {
        ScopingMode::RespectParent => { create_plan(tables, scope, scoping, false, root, plan) }
        ScopingMode::AllowShadowing => { create_plan(tables, scope, scoping, true, root, plan) }
    }
}
