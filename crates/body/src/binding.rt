// What a plan binds is bound in the scope.
ghost use Rattle.std.specs.Prelude.{◌*◌, ◌≤◌, ◌≡◌, length};
ghost use Rattle.planner.specs.Layout.{entry_words};
ghost use Rattle.body.specs.code.Post.{bound_entry, learned, learned_entry, PlanBound};

use planner::buffer::ENTRY_WORDS;
use planner::entry_kind;
use scope::Scope;
use table::reading::first_of;

// The name of a bind entry; any other entry binds none.
pub(crate) fn bind_entry(nodes: &[u32], scope: Scope, kind: u32, node: u32) -> Scope
    ensures { result ≡ bound_entry nodes.now scope kind node }
{
    if kind != entry_kind::BIND {
        return scope;
    }
    scope.bind_variable(first_of(nodes, node)).unwrap_or(scope)
}

// A name that is bound is known; `_` stays.
fn learn_name(states: &mut [u8; 128], name: u32)
    ensures { states.new ≡ learned states.old name }
{
    if name < 1 {
        return;
    }
    if 128 < name {
        return;
    }
    if states[name as usize - 1] == 1 {
        states[name as usize - 1] = 0;
    }
}

// The states of all names, with the name of a bind entry known.
pub(crate) fn learn_entry(nodes: &[u32], states: &mut [u8; 128], kind: u32, node: u32)
    ensures { states.new ≡ learned_entry nodes.now states.old kind node }
{
    if kind == entry_kind::BIND {
        learn_name(states, first_of(nodes, node));
    }
}

// The names of the first `count` entries, in the scope and in the states.
pub(crate) fn bind_plan(
    nodes: &[u32],
    scope: Scope,
    states: &mut [u8; 128],
    plan: &[u32],
    count: usize,
) -> Scope
    requires { count * entry_words ≤ length plan.now }
    ensures { PlanBound nodes.now scope states.old plan.now count states.new result }
{
    let mut here = scope;
    for i in 0..count {
        let kind = plan[i * ENTRY_WORDS];
        let node = plan[i * ENTRY_WORDS + 1];
        let next = bind_entry(nodes, here, kind, node);
        learn_entry(nodes, states, kind, node);
        here = next;
    }
    here
}
