// The lent plan buffer: the plan and then zeros, or all zeros.
ghost use Rattle.std.specs.Prelude.{◌≡◌, ◌+◌, [], ◌∷◌, length, get_or, replicate};
ghost use Rattle.planner.specs.Layout.{below, entry};
ghost use Rattle.planner.specs.Entries.{read_entries, WroteIn, put_entries, ClosedIn, word_at};
ghost use Rattle.base.specs.Lists.{tabulate};

use crate::{Plan, PlanRefusal};

// The words of an entry.
pub const ENTRY_WORDS: usize = 5;

// Space for the plan of any pattern: an entry for each of 512 nodes.
pub const PATTERN_WORDS: usize = 512 * ENTRY_WORDS;

// Zeros from word `from` on.
fn clear_after(plan: &mut [u32], from: usize)
    ensures { plan.new ≡ tabulate (word_at plan.old from) 0 (length plan.old) }
{
    for i in from..plan.len() {
        plan[i] = 0;
    }
}

pub fn clear(plan: &mut [u32])
    ensures { plan.new ≡ replicate (length plan.old) 0 }
{
    clear_after(plan, 0);
}

// One entry, if the buffer has space for it.
pub fn put_entry(
    plan: &mut [u32],
    at: usize,
    kind: u32,
    node: u32,
    count: u32,
    key: u32,
    position: u32,
)
    ensures { WroteIn plan at (entry kind node count (below key position) ∷ []) (at + 1) }
{
    if at < plan.len() / ENTRY_WORDS {
        let base = at * ENTRY_WORDS;
        plan[base] = kind;
        plan[base + 1] = node;
        plan[base + 2] = count;
        plan[base + 3] = key;
        plan[base + 4] = position;
    }
}

// Word i, or 0 behind the end.
pub(crate) fn word_of(words: &[u32], i: usize) -> u32
    ensures { result ≡ get_or words.now i 0 }
{
    if i < words.len() {
        return words[i];
    }
    0
}

// The first entries of a scratch, as many as the buffer has space for.
pub fn copy_entries(plan: &mut [u32], at: usize, scratch: &[u32], count: usize)
    ensures { plan.new ≡ put_entries plan.old at (read_entries scratch.now 0 count) }
{
    let mut to = at;
    for i in 0..count {
        if plan.len() / ENTRY_WORDS <= to {
            return;
        }
        let from = i * ENTRY_WORDS;
        put_entry(
            plan,
            to,
            word_of(scratch, from),
            word_of(scratch, from + 1),
            word_of(scratch, from + 2),
            word_of(scratch, from + 3),
            word_of(scratch, from + 4),
        );
        to += 1;
    }
}

// `at` entries are in the buffer, if it has space for them.
pub fn close(plan: &mut [u32], form: u32, at: usize) -> Result<Plan, PlanRefusal>
    ensures { ClosedIn plan form at result }
{
    if plan.len() / ENTRY_WORDS < at {
        clear(plan);
        return Err(PlanRefusal::PlanTooLarge { needed: at });
    }
    clear_after(plan, at * ENTRY_WORDS);
    Ok(Plan {
        form,
        side: 0,
        entries: at,
    })
}
