// That numbers do not repeat, found by marks in a local array.
ghost use Rattle.std.specs.Prelude.{◌≡◌, ℕ, ◌+◌, ◌/◌, ◌<◌, ◌≤◌, length, get_or};
ghost use Rattle.base.specs.Lists.{no_repeat};
ghost use Rattle.table.specs.Rules.{used_places};
ghost use Rattle.table.specs.code.Distinct.{PlacesMarked, PlacesAsks};

use crate::reading::{node_word, width_at};

// Does no node stand twice in the child list?
pub(crate) fn distinct_entries(children: &[u32]) -> bool
    requires { (i : ℕ) → i < length children.now → get_or children.now i 0 ≤ 512 }
    ensures { result ≡ no_repeat children.now }
{
    let mut used = [0u8; 513];
    for i in 0..children.len() {
        let entry = children[i] as usize;
        if used[entry] != 0 {
            return false;
        }
        used[entry] = 1;
    }
    true
}

// Marks `count` places from `first` on, unless one is marked.
fn mark_places(used: &mut [u8; 512], first: usize, count: usize) -> bool
    requires { (i : ℕ) → i < count → first + i < 512 }
    ensures { PlacesMarked first count used.old used.new result }
{
    for i in 0..count {
        let place = first + i;
        if used[place] != 0 {
            return false;
        }
        used[place] = 1;
    }
    true
}

// Does no child entry serve two nodes?
pub(crate) fn places_apart(nodes: &[u32]) -> bool
    requires { PlacesAsks nodes.now }
    ensures { result ≡ no_repeat (used_places nodes.now 1 (length nodes.now / 5)) }
{
    let mut used = [0u8; 512];
    let total = nodes.len() / 5;
    for n in 0..total {
        let first = node_word(nodes, n, 3) as usize;
        let count = width_at(nodes, n);
        if !mark_places(&mut used, first, count) {
            return false;
        }
    }
    true
}
