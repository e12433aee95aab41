// The planning call over the six operations.
#![tactic(auto)]

pub mod inner;
pub mod numbers;
mod patterns;
pub mod row;
mod version;

ghost use Rattle.table.specs.Contents.{contents};
ghost use Rattle.planner.specs.Operations.{AnsweredIn};
ghost use Rattle.operation.specs.Operation.{operation_outcome};
ghost use Rattle.operation.specs.Version.{version_outcome};

use crate::version::refusing_name;
use assignment::AssignOp;
use assignment::assignment::create_assignment_binding_plan;
use checks::Reading;
use planner::buffer::clear;
use planner::destructuring::create_destructuring_plan;
use planner::parameters::{create_loop_index_binding_plan, create_parameter_binding_plan};
use planner::{Plan, PlanRefusal};
use scope::{Scope, ScopingMode};
use some_in::create_some_in_binding_plan;
use table::tables::Tables;

// Versions of Rego; any number but 1 counts as 0.
pub const REGO_V0: u32 = 0;

pub const REGO_V1: u32 = 1;

// What to plan, with its roots, and the reading where a pattern is held against a literal expression; a some-in key of 0 says that there is none.
#[derive(Clone, Copy)]
pub enum Operation {
    Pattern {
        scoping: ScopingMode,
        root: u32,
    },
    ColonEquals {
        left: u32,
        right: u32,
        reading: Reading,
    },
    Equals {
        left: u32,
        right: u32,
        reading: Reading,
    },
    SomeIn {
        value: u32,
        collection: u32,
        key: u32,
        reading: Reading,
    },
    Index {
        root: u32,
    },
    Parameter {
        scoping: ScopingMode,
        root: u32,
    },
}

// Version 0.
fn plan_v0(
    tables: &Tables<'_>,
    scope: Scope,
    operation: Operation,
    plan: &mut [u32],
) -> Result<Plan, PlanRefusal>
    ensures { AnsweredIn plan (operation_outcome (contents tables.now) scope operation) result }
{
    match operation {
        Operation::Pattern { scoping, root } => create_destructuring_plan(
            tables, scope, scoping, root, plan,
        ),
        Operation::ColonEquals {
            left,
            right,
            reading,
        } => create_assignment_binding_plan(
            tables,
            scope,
            AssignOp::ColEq,
            left,
            right,
            reading,
            plan,
        ),
        Operation::Equals {
            left,
            right,
            reading,
        } => create_assignment_binding_plan(
            tables,
            scope,
            AssignOp::Eq,
            left,
            right,
            reading,
            plan,
        ),
        Operation::SomeIn {
            value,
            collection,
            key,
            reading,
        } => create_some_in_binding_plan(tables, scope, value, collection, key, reading, plan),
        Operation::Index { root } => create_loop_index_binding_plan(tables, scope, root, plan),
        Operation::Parameter { scoping, root } => create_parameter_binding_plan(
            tables, scope, scoping, root, plan,
        ),
    }
}

// Plans the operation into the buffer, for a version of Rego: any but 1 is version 0.
pub fn plan(
    tables: &Tables<'_>,
    scope: Scope,
    operation: Operation,
    version: u32,
    plan: &mut [u32],
) -> Result<Plan, PlanRefusal>
    ensures { AnsweredIn plan (version_outcome (contents tables.now) scope version operation) result }
{
    let name = refusing_name(tables, scope, operation, version);
    if name != 0 {
        clear(plan);
        return Err(PlanRefusal::ReservedName { name });
    }
    plan_v0(tables, scope, operation, plan)
}
