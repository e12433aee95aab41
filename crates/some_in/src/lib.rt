// Plans of `some key, value in collection` (some_in.rs).
#![tactic(auto)]

mod collection;

ghost use Rattle.table.specs.Contents.{contents};
ghost use Rattle.planner.specs.Operations.{AnsweredIn};
ghost use Rattle.planner.specs.code.Post.{GoodPair};
ghost use Rattle.some_in.specs.SomeIn.{some_in_planned, some_in_outcome};
ghost use Rattle.some_in.specs.code.Post.{PlaceAsks, Validated, SomeInClosed, ValueAsks, ValueAnswered, KeyAsks};

use crate::collection::check_collection;
use checks::{LiteralStructureCheck, Reading};
use planner::buffer::{clear, close};
use planner::inner::destructuring::plan_pattern;
use planner::inner::parameters::validate_pattern_bindings;
use planner::{Plan, PlanRefusal};
use scope::{Scope, ScopingMode};
use table::check;
use table::reading::is_node;
use table::tables::Tables;

// A pattern's plan in the buffer: the place after its entries, or its first name that is defined already.
fn plan_validated(
    tables: &Tables<'_>,
    scope: Scope,
    root: u32,
    plan: &mut [u32],
    at: usize,
) -> Result<usize, PlanRefusal>
    requires { PlaceAsks (contents tables.now) root at }
    ensures { Validated (contents tables.now) scope root at plan.old plan.new result }
{
    let mut binders = [0u32; 128];
    let planned = plan_pattern(
        tables,
        scope,
        ScopingMode::RespectParent,
        root,
        &mut binders,
        plan,
        at,
    );
    let name = validate_pattern_bindings(tables, scope, &binders, root);
    if name != 0 {
        return Err(PlanRefusal::VariableAlreadyDefined { name });
    }
    Ok(planned.next)
}

// The entries that stand before `end`, unless the collection's items are a mismatch.
fn deliver_some_in(
    plan: &mut [u32],
    form: u32,
    check: LiteralStructureCheck,
    end: usize,
) -> Result<Plan, PlanRefusal>
    ensures { SomeInClosed form check end plan.old plan.new result }
{
    match check {
        LiteralStructureCheck::Match => close(plan, form, end),
        LiteralStructureCheck::Unknown => close(plan, form, end),
        LiteralStructureCheck::ArrayMismatch {
            value,
            expected,
            actual,
        } => {
            clear(plan);
            Err(PlanRefusal::ArrayLengthMismatch {
                value,
                expected,
                actual,
            })
        }
        LiteralStructureCheck::ObjectMismatch { value, pattern } => {
            clear(plan);
            Err(PlanRefusal::ObjectLiteralKeysMismatch { value, pattern })
        }
    }
}

// The value, after a key whose entries stand before `at`.
fn plan_value(
    tables: &Tables<'_>,
    scope: Scope,
    value: u32,
    collection: u32,
    form: u32,
    reading: Reading,
    plan: &mut [u32],
    at: usize,
) -> Result<Plan, PlanRefusal>
    requires { ValueAsks (contents tables.now) value collection at }
    ensures { ValueAnswered (contents tables.now) scope value collection form reading at plan.old plan.new result }
{
    match plan_validated(tables, scope, value, plan, at) {
        Ok(end) => {
            let check = check_collection(tables, value, collection, reading);
            deliver_some_in(plan, form, check, end)
        }
        Err(refusal) => {
            clear(plan);
            Err(refusal)
        }
    }
}

fn plan_key(
    tables: &Tables<'_>,
    scope: Scope,
    value: u32,
    collection: u32,
    key: u32,
    reading: Reading,
    plan: &mut [u32],
) -> Result<Plan, PlanRefusal>
    requires { KeyAsks (contents tables.now) value collection key }
    ensures { AnsweredIn plan (some_in_planned (contents tables.now) scope value collection key reading) result }
{
    match plan_validated(tables, scope, key, plan, 0) {
        Ok(end) => plan_value(tables, scope, value, collection, 1, reading, plan, end),
        Err(refusal) => {
            clear(plan);
            Err(refusal)
        }
    }
}

fn plan_without_key(
    tables: &Tables<'_>,
    scope: Scope,
    value: u32,
    collection: u32,
    reading: Reading,
    plan: &mut [u32],
) -> Result<Plan, PlanRefusal>
    requires { GoodPair (contents tables.now) value collection }
    ensures { AnsweredIn plan (some_in_planned (contents tables.now) scope value collection 0 reading) result }
{
    plan_value(tables, scope, value, collection, 0, reading, plan, 0)
}

// Key root 0 says that there is no key.
pub fn create_some_in_binding_plan(
    tables: &Tables<'_>,
    scope: Scope,
    value: u32,
    collection: u32,
    key: u32,
    reading: Reading,
    plan: &mut [u32],
) -> Result<Plan, PlanRefusal>
    ensures { AnsweredIn plan (some_in_outcome (contents tables.now) scope value collection key reading) result }
{
    let checked = check(tables, scope);
    if let Err(refused) = checked {
        clear(plan);
        return Err(refused.into());
    }
    if !is_node(tables.nodes, value) {
        clear(plan);
        return Err(PlanRefusal::RootOutside);
    }
    if !is_node(tables.nodes, collection) {
        clear(plan);
        return Err(PlanRefusal::RootOutside);
    }
    if key == 0 {
        return plan_without_key(tables, scope, value, collection, reading, plan);
    }
    if !is_node(tables.nodes, key) {
        clear(plan);
        return Err(PlanRefusal::RootOutside);
    }
    plan_key(tables, scope, value, collection, key, reading, plan)
}
