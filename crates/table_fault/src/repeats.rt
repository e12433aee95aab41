// That nothing repeats an earlier one.
ghost use Rattle.std.specs.Prelude.{◌≡◌, [], ◌-◌, ◌<◌, ◌≤◌, length};
ghost use Rattle.table.specs.Tables.{tables};
ghost use Rattle.table.specs.Rules.{new_name_at};
ghost use Rattle.table_fault.specs.Rules.{new_entry_at, new_places_at};
ghost use Rattle.table_fault.specs.code.Asking.{share, Short};

use table::reading::{first_of, name_bytes, same_bytes, width_of};

// Is a child entry none of those before it?
pub(crate) fn is_new_entry(children: &[u32], place: usize) -> bool
    requires { place < length children.now }
    ensures { result ≡ new_entry_at children.now place }
{
    let entry = children[place];
    for i in 0..place {
        if children[i] == entry {
            return false;
        }
    }
    true
}

// Have two ranges a number in common?
fn overlap(first: usize, count: usize, other: usize, size: usize) -> bool
    requires { Short first count × Short other size }
    ensures { result ≡ share first count other size }
{
    if count == 0 {
        return false;
    }
    if size == 0 {
        return false;
    }
    if first + count <= other {
        return false;
    }
    first < other + size
}

// Are a node's child entries used by none of the nodes before it?
pub(crate) fn has_new_places(nodes: &[u32], node: u32) -> bool
    requires { (1 ≤ node) × (node ≤ 512) }
    ensures { result ≡ new_places_at nodes.now (node - 1) }
{
    let first = first_of(nodes, node) as usize;
    let count = width_of(nodes, node);
    for other in 1..node {
        let start = first_of(nodes, other) as usize;
        if overlap(first, count, start, width_of(nodes, other)) {
            return false;
        }
    }
    true
}

// Has no name before it its bytes?
pub(crate) fn is_new_name(names: &[u32], text: &[u8], name: u32) -> bool
    requires { (1 ≤ name) × (name ≤ 128) }
    ensures { result ≡ new_name_at (tables [] [] [] names.now [] text.now) (name - 1) }
{
    let bytes = name_bytes(names, text, name);
    for other in 1..name {
        if same_bytes(name_bytes(names, text, other), bytes) {
            return false;
        }
    }
    true
}
