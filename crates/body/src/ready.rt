// The first name of a planned line that is not ready: on its value sides, then in its computed keys. Node 0 stands for none.
ghost use Rattle.table.specs.Contents.{contents};
ghost use Rattle.std.specs.Prelude.{◌≡◌, cond, eqb};
ghost use Rattle.body.specs.code.Post.{Asks, first_unknown, both_unknown, PlanHeld, pairs_found, keys_found, values_found, line_found};

use crate::binding::{bind_entry, learn_entry};
use crate::sides::sides_of;
use operation::Operation;
use planner::buffer::ENTRY_WORDS;
use planner::entry_kind;
use planner::inner::names::first_name;
use scope::Scope;
use table::node_kind;
use table::reading::kind_of;
use table::tables::Tables;

// The node of the first name at or below a node that the scope does not know, or 0.
fn first_unknown(tables: &Tables<'_>, scope: Scope, states: &[u8; 128], node: u32) -> u32
    requires { Asks (contents tables.now) scope states.now }
    ensures { result ≡ first_unknown (contents tables.now) scope node }
{
    if kind_of(tables.nodes, node) <= node_kind::LAST_LITERAL {
        return 0;
    }
    let sets = true;
    let keys = true;
    first_name(tables, states, sets, keys, node)
}

// In the first of two nodes that has one.
fn both_unknown(
    tables: &Tables<'_>,
    scope: Scope,
    states: &[u8; 128],
    first: u32,
    second: u32,
) -> u32
    requires { Asks (contents tables.now) scope states.now }
    ensures { result ≡ both_unknown (contents tables.now) scope first second }
{
    let found = first_unknown(tables, scope, states, first);
    if found != 0 {
        return found;
    }
    first_unknown(tables, scope, states, second)
}

// The value side of a pair.
fn pair_node(kind: u32, node: u32) -> u32
    ensures { result ≡ cond (eqb kind 7) node 0 }
{
    if kind == entry_kind::PAIR {
        return node;
    }
    0
}

// On the value sides of a plan's pairs; what a pair binds is bound before the next.
fn pairs_unready(
    tables: &Tables<'_>,
    scope: Scope,
    states: [u8; 128],
    plan: &[u32],
    count: usize,
) -> u32
    requires { PlanHeld (contents tables.now) scope states plan.now count }
    ensures { result ≡ pairs_found (contents tables.now) scope plan.now count }
{
    let mut here = scope;
    let mut known = states;
    for i in 0..count {
        let kind = plan[i * ENTRY_WORDS];
        let node = plan[i * ENTRY_WORDS + 1];
        let found = first_unknown(tables, here, &known, pair_node(kind, node));
        if found != 0 {
            return found;
        }
        let next = bind_entry(tables.nodes, here, kind, node);
        learn_entry(tables.nodes, &mut known, kind, node);
        here = next;
    }
    0
}

// The key of an entry that is no pair.
fn key_node(kind: u32, key: u32) -> u32
    ensures { result ≡ cond (eqb kind 7) 0 key }
{
    if kind != entry_kind::PAIR {
        return key;
    }
    0
}

// The keys of a pair are read in the scope before it.
fn scope_from(kind: u32, earlier: Scope, here: Scope) -> Scope
    ensures { result ≡ cond (eqb kind 7) here earlier }
{
    if kind == entry_kind::PAIR {
        return here;
    }
    earlier
}

fn states_from(kind: u32, earlier: &mut [u8; 128], here: &[u8; 128])
    ensures { earlier.new ≡ cond (eqb kind 7) here.now earlier.old }
{
    if kind == entry_kind::PAIR {
        *earlier = *here;
    }
}

// In a plan's computed keys: what earlier pairs bind is known there, what the pair or plan itself binds is not.
fn keys_unready(
    tables: &Tables<'_>,
    scope: Scope,
    states: [u8; 128],
    plan: &[u32],
    count: usize,
) -> u32
    requires { PlanHeld (contents tables.now) scope states plan.now count }
    ensures { result ≡ keys_found (contents tables.now) scope plan.now count }
{
    let mut earlier = scope;
    let mut here = scope;
    let mut ready = states;
    let mut known = states;
    for i in 0..count {
        let kind = plan[i * ENTRY_WORDS];
        let node = plan[i * ENTRY_WORDS + 1];
        let key = plan[i * ENTRY_WORDS + 3];
        let found = first_unknown(tables, earlier, &ready, key_node(kind, key));
        if found != 0 {
            return found;
        }
        let from = scope_from(kind, earlier, here);
        earlier = from;
        states_from(kind, &mut ready, &known);
        let next = bind_entry(tables.nodes, here, kind, node);
        learn_entry(tables.nodes, &mut known, kind, node);
        here = next;
    }
    0
}

fn values_unready(
    tables: &Tables<'_>,
    scope: Scope,
    states: [u8; 128],
    operation: Operation,
    form: u32,
    side: u32,
    plan: &[u32],
    count: usize,
) -> u32
    requires { PlanHeld (contents tables.now) scope states plan.now count }
    ensures { result ≡ values_found (contents tables.now) scope operation form side plan.now count }
{
    let sides = sides_of(operation, form, side);
    if sides.pairs {
        return pairs_unready(tables, scope, states, plan, count);
    }
    both_unknown(tables, scope, &states, sides.first, sides.second)
}

// The node of the first name that is not ready, or 0, of a line that is planned with this form and side and `count` entries.
pub(crate) fn line_unready(
    tables: &Tables<'_>,
    scope: Scope,
    states: [u8; 128],
    operation: Operation,
    form: u32,
    side: u32,
    plan: &[u32],
    count: usize,
) -> u32
    requires { PlanHeld (contents tables.now) scope states plan.now count }
    ensures { result ≡ line_found (contents tables.now) scope operation form side plan.now count }
{
    let found = values_unready(tables, scope, states, operation, form, side, plan, count);
    if found != 0 {
        return found;
    }
    keys_unready(tables, scope, states, plan, count)
}
