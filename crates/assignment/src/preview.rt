// A side's plan, and the names that it binds.
ghost use Rattle.table.specs.Contents.{contents};
ghost use Rattle.std.specs.Prelude.{◌<◌, ◌≡◌};
ghost use Rattle.planner.specs.Layout.{binds_any};
ghost use Rattle.planner.specs.Entries.{read_entries};
ghost use Rattle.assignment.specs.code.Previewing.{PreviewAsksIn, PreviewedIn, LearntAt, Learnt, SidesAsksIn, SidesToldIn};

use planner::buffer::{ENTRY_WORDS, clear};
use planner::entry_kind;
use planner::inner::destructuring::create_destructuring_plan_with_tracking;
use table::tables::Tables;

// A side's plan: how many entries it has, and whether one of them binds.
#[derive(Clone, Copy)]
pub(crate) struct Preview {
    pub count: usize,
    pub binds: bool,
}

// Which of two sides binds, and how many entries the left one's plan has.
#[derive(Clone, Copy)]
pub(crate) struct Sides {
    pub left: bool,
    pub right: bool,
    pub count: usize,
}

// Does one of the first entries bind or ignore?
pub(crate) fn introduces_binding(scratch: &[u32], count: usize) -> bool
    ensures { result ≡ binds_any (read_entries scratch.now 0 count) }
{
    for i in 0..count {
        if scratch.len() / ENTRY_WORDS < i {
            return false;
        }
        let at = i * ENTRY_WORDS;
        if scratch.len() <= at {
            return false;
        }
        let kind = scratch[at];
        if kind == entry_kind::BIND {
            return true;
        }
        if kind == entry_kind::IGNORE {
            return true;
        }
    }
    false
}

// The plan of a side by the states alone, in the scratch: at position 1 below a pair, else at 0.
pub(crate) fn preview_binding_plan(
    tables: &Tables<'_>,
    states: &[u8; 128],
    node: u32,
    position: u32,
    binders: &mut [u32; 128],
    scratch: &mut [u32],
) -> Preview
    requires { PreviewAsksIn scratch (contents tables.now) states.now node }
    ensures { PreviewedIn scratch binders (contents tables.now) states.now node position result.count result.binds }
{
    clear(binders);
    let planned = create_destructuring_plan_with_tracking(
        tables, states, node, position, binders, scratch, 0,
    );
    let count = planned.next;
    let binds = introduces_binding(scratch, count);
    Preview { count, binds }
}

// Neither side's preview sees the other's names. The left one's plan and binders stay.
pub(crate) fn preview_sides(
    tables: &Tables<'_>,
    states: &[u8; 128],
    left: u32,
    right: u32,
    position: u32,
    binders: &mut [u32; 128],
    scratch: &mut [u32],
) -> Sides
    requires { SidesAsksIn scratch (contents tables.now) states.now left right }
    ensures { SidesToldIn scratch binders states (contents tables.now) left right position result.count result.left result.right }
{
    let other = preview_binding_plan(tables, states, right, position, binders, scratch);
    let one = preview_binding_plan(tables, states, left, position, binders, scratch);
    Sides {
        left: one.binds,
        right: other.binds,
        count: one.count,
    }
}

// A name with a binder becomes known, `_` stays `_`.
fn learn_name(states: &mut [u8; 128], binders: &[u32; 128], at: usize)
    requires { at < 128 }
    ensures { LearntAt states.old binders.now at states.new }
{
    if states[at] == 1 {
        if binders[at] != 0 {
            states[at] = 0;
        }
    }
}

pub(crate) fn learn_names(states: &mut [u8; 128], binders: &[u32; 128])
    ensures { Learnt states.old binders.now states.new }
{
    for i in 0..128 {
        learn_name(states, binders, i);
    }
}
