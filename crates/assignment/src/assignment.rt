// `:=` and `=` (assignment.rs).
ghost use Rattle.table.specs.Contents.{contents};
ghost use Rattle.std.specs.Prelude.{◌≡◌, []};
ghost use Rattle.table.specs.Tables.{kind_of};
ghost use Rattle.planner.specs.Operations.{planned, AnsweredIn};
ghost use Rattle.planner.specs.code.Post.{GoodPair};
ghost use Rattle.assignment.specs.Assignment.{equals_sides, equals_planned, by_operator, assignment_outcome};
ghost use Rattle.assignment.specs.code.Previewing.{GoodPairIn, SidesAsksIn};
ghost use Rattle.checks.specs.code.Post.{WorkingSpace};
ghost use Rattle.assignment.specs.code.Binding.{BindAsks, SideBoundIn, ColonBoundIn, opposed_kinds, underscore_at, underscore_side, RightBoundIn, ColonEqualsIn};

use crate::AssignOp;
use crate::entries::{deliver, first_same_scope};
use crate::flatten::flatten_assignment_pairs;
use crate::preview::{introduces_binding, preview_binding_plan, preview_sides};
use checks::inner::check_literal_structure;
use checks::{LiteralStructureCheck, Reading};
use planner::buffer::{ENTRY_WORDS, PATTERN_WORDS, clear};
use planner::context::name_states;
use planner::inner::destructuring::plan_pattern;
use planner::{Plan, PlanRefusal};
use scope::{Scope, ScopingMode};
use table::reading::{first_of, is_node, kind_of, name_class};
use table::tables::Tables;
use table::{NameClass, check, node_kind};

// The small scratch: an entry for each of 64 nodes, and the words of these nodes, five each.
const SMALL_WORDS: usize = 64 * ENTRY_WORDS;

const SMALL_NODE_WORDS: usize = 64 * 5;

// An array against an object (ensure_structural_compatibility).
fn structurally_incompatible(nodes: &[u32], a: u32, b: u32) -> bool
    ensures { result ≡ opposed_kinds (kind_of nodes.now a) (kind_of nodes.now b) }
{
    let left = kind_of(nodes, a);
    let right = kind_of(nodes, b);
    if left == node_kind::ARRAY {
        return right == node_kind::OBJECT;
    }
    if left == node_kind::OBJECT {
        return right == node_kind::ARRAY;
    }
    false
}

// The binding side's plan, whose entries stand in the scratch, held against the value side (ensure_structural_compatibility, then ensure_literal_match).
fn bind_side(
    tables: &Tables<'_>,
    form: u32,
    binding: u32,
    value: u32,
    reading: Reading,
    scratch: &[u32],
    count: usize,
    plan: &mut [u32],
) -> Result<Plan, PlanRefusal>
    requires { BindAsks (contents tables.now) binding value scratch.now count }
    ensures { SideBoundIn plan scratch (contents tables.now) form binding value reading count result }
{
    if structurally_incompatible(tables.nodes, binding, value) {
        clear(plan);
        return Err(PlanRefusal::IncompatibleDestructuringPatterns { side: binding });
    }
    let structure = check_literal_structure(tables, binding, value, reading);
    match structure {
        LiteralStructureCheck::Match => deliver(plan, scratch, form, count),
        LiteralStructureCheck::Unknown => deliver(plan, scratch, form, count),
        LiteralStructureCheck::ArrayMismatch {
            value,
            expected,
            actual,
        } => {
            clear(plan);
            Err(PlanRefusal::ArrayLengthMismatch {
                value,
                expected,
                actual,
            })
        }
        LiteralStructureCheck::ObjectMismatch { value, pattern } => {
            clear(plan);
            Err(PlanRefusal::ObjectLiteralKeysMismatch { value, pattern })
        }
    }
}

// No entries: an equality check or a wildcard.
fn deliver_none(plan: &mut [u32], form: u32, side: u32) -> Result<Plan, PlanRefusal>
    ensures { AnsweredIn plan (planned form side []) result }
{
    clear(plan);
    Ok(Plan {
        form,
        side,
        entries: 0,
    })
}

// `:=`, the left side's plan standing in the scratch.
fn colon_equals_from(
    tables: &Tables<'_>,
    scope: Scope,
    left: u32,
    right: u32,
    reading: Reading,
    scratch: &[u32],
    count: usize,
    plan: &mut [u32],
) -> Result<Plan, PlanRefusal>
    requires { BindAsks (contents tables.now) left right scratch.now count }
    ensures { ColonBoundIn plan scratch (contents tables.now) scope left right reading count result }
{
    if !introduces_binding(scratch, count) {
        clear(plan);
        return Err(PlanRefusal::ColonEqualsRequiresBindableLeft { left });
    }
    let name = first_same_scope(tables.nodes, scope, scratch, count);
    if name != 0 {
        clear(plan);
        return Err(PlanRefusal::VariableAlreadyDefined { name });
    }
    bind_side(tables, 1, left, right, reading, scratch, count, plan)
}

// `:=`, the left side planned into a scratch with space for an entry of each node.
fn colon_equals_in(
    tables: &Tables<'_>,
    scope: Scope,
    left: u32,
    right: u32,
    reading: Reading,
    scratch: &mut [u32],
    plan: &mut [u32],
) -> Result<Plan, PlanRefusal>
    requires { GoodPairIn scratch (contents tables.now) left right }
    ensures { ColonEqualsIn plan scratch (contents tables.now) scope left right reading result }
{
    let mut binders = [0u32; 128];
    let planned = plan_pattern(
        tables,
        scope,
        ScopingMode::AllowShadowing,
        left,
        &mut binders,
        scratch,
        0,
    );
    let count = planned.next;
    colon_equals_from(tables, scope, left, right, reading, scratch, count, plan)
}

fn is_underscore(nodes: &[u32], names: &[u32], text: &[u8], node: u32) -> bool
    ensures { result ≡ underscore_at nodes.now names.now text.now node }
{
    let kind = kind_of(nodes, node);
    if kind == node_kind::NAME {
        let class = name_class(names, text, first_of(nodes, node));
        return match class {
            NameClass::Underscore => true,
            NameClass::InputOrData => false,
            NameClass::Ordinary => false,
        };
    }
    false
}

// 1 where the left is `_`, 2 the right, 3 both, 0 neither.
fn wildcard_side(nodes: &[u32], names: &[u32], text: &[u8], left: u32, right: u32) -> u32
    ensures { result ≡ underscore_side nodes.now names.now text.now left right }
{
    let at_left = is_underscore(nodes, names, text, left);
    let at_right = is_underscore(nodes, names, text, right);
    if at_left {
        if at_right {
            return 3;
        }
        return 1;
    }
    if at_right {
        return 2;
    }
    0
}

// `=`, the right side planned anew and held against the left.
fn bind_right(
    tables: &Tables<'_>,
    states: &[u8; 128],
    left: u32,
    right: u32,
    reading: Reading,
    binders: &mut [u32; 128],
    scratch: &mut [u32],
    plan: &mut [u32],
) -> Result<Plan, PlanRefusal>
    requires { SidesAsksIn scratch (contents tables.now) states.now left right }
    ensures { RightBoundIn plan scratch binders (contents tables.now) states.now left right reading result }
{
    let planned = preview_binding_plan(tables, states, right, 0, binders, scratch);
    bind_side(
        tables,
        3,
        right,
        left,
        reading,
        scratch,
        planned.count,
        plan,
    )
}

// `=`, the sides planned into a scratch with space for an entry of each node.
fn equals_in(
    tables: &Tables<'_>,
    scope: Scope,
    left: u32,
    right: u32,
    reading: Reading,
    scratch: &mut [u32],
    plan: &mut [u32],
) -> Result<Plan, PlanRefusal>
    requires { GoodPairIn scratch (contents tables.now) left right }
    ensures { AnsweredIn plan (equals_sides (contents tables.now) scope left right reading) result × WorkingSpace scratch }
{
    let states = name_states(tables.names, tables.text, scope, ScopingMode::RespectParent);
    let mut binders = [0u32; 128];
    let sides = preview_sides(tables, &states, left, right, 0, &mut binders, scratch);
    let count = sides.count;
    if sides.left {
        if sides.right {
            return flatten_assignment_pairs(
                tables,
                scope,
                left,
                right,
                &mut binders,
                scratch,
                plan,
            );
        }
        return bind_side(tables, 2, left, right, reading, scratch, count, plan);
    }
    if sides.right {
        return bind_right(
            tables,
            &states,
            left,
            right,
            reading,
            &mut binders,
            scratch,
            plan,
        );
    }
    deliver_none(plan, 5, 0)
}

// `=`: the wildcard form, or the sides.
fn plan_equals(
    tables: &Tables<'_>,
    scope: Scope,
    left: u32,
    right: u32,
    reading: Reading,
    scratch: &mut [u32],
    plan: &mut [u32],
) -> Result<Plan, PlanRefusal>
    requires { GoodPairIn scratch (contents tables.now) left right }
    ensures { AnsweredIn plan (equals_planned (contents tables.now) scope left right reading) result × WorkingSpace scratch }
{
    let side = wildcard_side(tables.nodes, tables.names, tables.text, left, right);
    if side != 0 {
        return deliver_none(plan, 6, side);
    }
    equals_in(tables, scope, left, right, reading, scratch, plan)
}

// By the operator, the sides planned into a scratch with space for an entry of each node.
fn plan_assignment_in(
    tables: &Tables<'_>,
    scope: Scope,
    op: AssignOp,
    left: u32,
    right: u32,
    reading: Reading,
    scratch: &mut [u32],
    plan: &mut [u32],
) -> Result<Plan, PlanRefusal>
    requires { GoodPairIn scratch (contents tables.now) left right }
    ensures { AnsweredIn plan (by_operator op (contents tables.now) scope left right reading) result × WorkingSpace scratch }
{
    match op {
        AssignOp::ColEq => colon_equals_in(tables, scope, left, right, reading, scratch, plan),
        AssignOp::Eq => plan_equals(tables, scope, left, right, reading, scratch, plan),
    }
}

// Few nodes have a small scratch, since clearing the larger takes longer than a small plan.
fn plan_assignment(
    tables: &Tables<'_>,
    scope: Scope,
    op: AssignOp,
    left: u32,
    right: u32,
    reading: Reading,
    plan: &mut [u32],
) -> Result<Plan, PlanRefusal>
    requires { GoodPair (contents tables.now) left right }
    ensures { AnsweredIn plan (by_operator op (contents tables.now) scope left right reading) result }
{
    if tables.nodes.len() <= SMALL_NODE_WORDS {
        let mut scratch = [0u32; SMALL_WORDS];
        return plan_assignment_in(tables, scope, op, left, right, reading, &mut scratch, plan);
    }
    let mut scratch = [0u32; PATTERN_WORDS];
    plan_assignment_in(tables, scope, op, left, right, reading, &mut scratch, plan)
}

pub fn create_assignment_binding_plan(
    tables: &Tables<'_>,
    scope: Scope,
    op: AssignOp,
    left: u32,
    right: u32,
    reading: Reading,
    plan: &mut [u32],
) -> Result<Plan, PlanRefusal>
    ensures { AnsweredIn plan (assignment_outcome (contents tables.now) scope op left right reading) result }
{
    let checked = check(tables, scope);
    if let Err(refused) = checked {
        clear(plan);
        return Err(refused.into());
    }
    if !is_node(tables.nodes, left) {
        clear(plan);
        return Err(PlanRefusal::RootOutside);
    }
    if !is_node(tables.nodes, right) {
        clear(plan);
        return Err(PlanRefusal::RootOutside);
    }
    plan_assignment(tables, scope, op, left, right, reading, plan)
}
