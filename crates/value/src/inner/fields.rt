// The fields of an object by their keys.
ghost use Rattle.table.specs.Contents.{contents};
ghost use Rattle.std.specs.Prelude.{◌≡◌};
ghost use Rattle.table.specs.Decode.{literal_at, fields_of};
ghost use Rattle.planner.specs.Simple.{keys_of};
ghost use Rattle.value.specs.Value.{same_key_sets};
ghost use Rattle.value.specs.code.Post.{same_literals, ChildrenAsks, node_or_none, under_from, under_in, KeyedObject, KeySetsAsks};

use literal::Comparison;
use table::reading::{child_at, compare_literals, count_of, first_of};
use table::tables::Tables;

// Are two nodes equal literals?
pub fn same_literals(tables: &Tables<'_>, a: u32, b: u32) -> bool
    ensures { let T = contents tables.now in result ≡ same_literals (literal_at T a) (literal_at T b) }
{
    let way = compare_literals(
        tables.nodes,
        tables.numbers,
        tables.strings,
        tables.text,
        a,
        b,
    );
    matches!(way, Comparison::Equal)
}

// The value node of the first of `left` fields under a key.
fn scan_under(tables: &Tables<'_>, at: usize, left: usize, key: u32) -> Option<u32>
    requires { ChildrenAsks (contents tables.now) at 2 left }
    ensures { let T = contents tables.now in result ≡ node_or_none (under_from T (literal_at T key) at left) }
{
    for i in 0..left {
        let place = at + i * 2;
        let other = child_at(tables.children, place);
        if same_literals(tables, key, other) {
            return Some(child_at(tables.children, place + 1));
        }
    }
    None
}

// An object's value node under a key. The field at `position` is looked at first.
pub fn value_under(tables: &Tables<'_>, object: u32, position: usize, key: u32) -> Option<u32>
    requires { KeyedObject (contents tables.now) object }
    ensures { result ≡ node_or_none (under_in (contents tables.now) object key) }
{
    let first = first_of(tables.nodes, object) as usize;
    let count = count_of(tables.nodes, object) as usize;
    if position < count {
        let place = first + position * 2;
        let other = child_at(tables.children, place);
        if same_literals(tables, key, other) {
            return Some(child_at(tables.children, place + 1));
        }
    }
    scan_under(tables, first, count, key)
}

// Have two objects the same keys? With as many keys, those of the first need only be the second's.
pub fn same_key_sets(tables: &Tables<'_>, a: u32, b: u32) -> bool
    requires { KeySetsAsks (contents tables.now) a b }
    ensures { let T = contents tables.now in result ≡ same_key_sets (keys_of (fields_of T a)) (keys_of (fields_of T b)) }
{
    let first = first_of(tables.nodes, a) as usize;
    let count = count_of(tables.nodes, a) as usize;
    if count_of(tables.nodes, b) as usize != count {
        return false;
    }
    for i in 0..count {
        let key = child_at(tables.children, first + i * 2);
        if value_under(tables, b, i, key).is_none() {
            return false;
        }
    }
    true
}
