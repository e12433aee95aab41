// The entries of a store, and their words.
ghost use Rattle.std.specs.Prelude.{◌≡◌, ◌+◌, ◌-◌, ◌≤◌, length, drop};
ghost use Rattle.std.proofs.Math.Seq.{paste};
ghost use Rattle.plan_store.specs.code.Rows.{InsertAsks, inserted, Admitted, plan_inserted, five_at};

use crate::head::{entries_end, wide};
use planner::buffer::ENTRY_WORDS;

// Moves the words from `at` to `end` up by some places.
fn move_up(store: &mut [u32], at: usize, end: usize, by: usize)
    requires { (at ≤ end) × (end + by ≤ length store.old) }
    ensures { store.new ≡ paste store.old (at + by) (drop at store.old) (end - at) }
{
    store.copy_within(at..end, at + by);
}

// Copies the first `count` words of a plan to a place; `copy_from_slice` would have the archive for C need memmove.
fn copy_in(store: &mut [u32], at: usize, plan: &[u32], count: usize)
    requires { (at + count ≤ length store.old) × (count ≤ length plan.now) }
    ensures { store.new ≡ paste store.old at plan.now count }
{
    for i in 0..count {
        store[at + i] = plan[i];
    }
}

// Puts the first `size` words of a plan at a place; those that stand from there to `end` move up.
fn insert_words(store: &mut [u32], at: usize, end: usize, plan: &[u32], size: usize)
    requires { InsertAsks store.old at end plan.now size }
    ensures { store.new ≡ inserted store.old at end plan.now size }
{
    move_up(store, at, end, size);
    copy_in(store, at, plan, size);
}

// Puts the words of a plan behind its pack's entries; those of later packs move up.
pub(crate) fn insert_plan(store: &mut [u32], pack: u32, plan: &[u32], entries: u32)
    requires { Admitted store.old pack plan.now entries }
    ensures { store.new ≡ plan_inserted store.old pack plan.now entries }
{
    let packs = wide(store[0]);
    let at = entries_end(store, pack as usize);
    let end = entries_end(store, packs);
    insert_words(store, at, end, plan, entries as usize * ENTRY_WORDS);
}

// An entry's words.
pub(crate) fn words_at(store: &[u32], at: usize) -> [u32; 5]
    requires { at + 5 ≤ length store.now }
    ensures { result ≡ five_at store.now at }
{
    [
        store[at],
        store[at + 1],
        store[at + 2],
        store[at + 3],
        store[at + 4],
    ]
}
