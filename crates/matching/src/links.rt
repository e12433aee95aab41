// The entries of a plan's children by their positions: fields stand in key order in a plan, and are taken as written.
ghost use Rattle.matching.specs.code.Linking.{LinkAsks, Linked, ChainAsks, ChainLinked};

use planner::buffer::{ENTRY_WORDS, PATTERN_WORDS};

// The child of entry `at` at position i + 1 is entry number `entries[starts[at] + i]`.
#[derive(Clone, Copy)]
pub(crate) struct Links {
    pub starts: [u16; 512],
    pub entries: [u16; 512],
}

// The entries of a plan, with their links.
#[derive(Clone, Copy)]
pub(crate) struct LinkedPlan<'a> {
    pub scratch: &'a [u32; PATTERN_WORDS],
    pub links: &'a Links,
}

// The children of entry `at`, `count` of them; the entry behind its plan. `nexts` has for each later entry the one behind its plan.
fn link_children(
    scratch: &[u32; PATTERN_WORDS],
    nexts: &[u16; 512],
    links: &mut [u16; 512],
    at: usize,
    start: usize,
    count: usize,
) -> usize
    requires { ChainAsks scratch.now nexts.now links.old at start count }
    ensures { ChainLinked scratch.now nexts.now links.old at start count links.new result }
{
    let mut child = at + 1;
    for _i in 0..count {
        let position = scratch[child * ENTRY_WORDS + 4] as usize;
        links[start + position - 1] = child as u16;
        child = nexts[child] as usize;
    }
    child
}

// The children of each of the first `count` entries of the scratch, from the last entry to the first.
pub(crate) fn link_entries(scratch: &[u32; PATTERN_WORDS], count: usize) -> Links
    requires { LinkAsks scratch.now count }
    ensures { Linked scratch.now count result.starts result.entries }
{
    let mut nexts = [0u16; 512];
    let mut starts = [0u16; 512];
    let mut entries = [0u16; 512];
    let mut free: usize = 512;
    for at in (0..count).rev() {
        let children = scratch[at * ENTRY_WORDS + 2] as usize;
        free -= children;
        starts[at] = free as u16;
        let next = link_children(scratch, &nexts, &mut entries, at, free, children);
        nexts[at] = next as u16;
    }
    Links { starts, entries }
}
