// Are two values equal? Fields in the same order are found at once.
ghost use Rattle.table.specs.Contents.{contents};
ghost use Rattle.std.specs.Prelude.{◌≡◌};
ghost use Rattle.table.specs.Decode.{expr, fields_of};
ghost use Rattle.value.specs.Value.{value_of, value_fields_of, same, same_items, same_fields_lem};
ghost use Rattle.value.specs.code.Post.{values_from, SameAsks, SameItemsAsks, SameFieldsAsks};

use crate::inner::fields::{same_literals, value_under};
use table::node_kind;
use table::reading::{child_at, count_of, first_of, kind_of};
use table::tables::Tables;

#[cycle(same_fields_same_items_same_value)]
pub fn same_value(tables: &Tables<'_>, a: u32, b: u32) -> bool
    requires { SameAsks (contents tables.now) a b }
    ensures { let T = contents tables.now in result ≡ same (value_of (expr T a)) (value_of (expr T b)) }
{
    let kind = kind_of(tables.nodes, a);
    if kind <= node_kind::LAST_LITERAL {
        return same_literals(tables, a, b);
    }
    if kind_of(tables.nodes, b) != kind {
        return false;
    }
    let count = count_of(tables.nodes, a);
    if count_of(tables.nodes, b) != count {
        return false;
    }
    if kind == node_kind::ARRAY {
        let at = first_of(tables.nodes, a) as usize;
        let from = first_of(tables.nodes, b) as usize;
        return same_items(tables, a, at, from, count as usize);
    }
    same_fields(tables, a, b)
}

// `left` items from child entries `at` and `from` on.
#[cycle(same_fields_same_items_same_value)]
fn same_items(tables: &Tables<'_>, parent: u32, at: usize, from: usize, left: usize) -> bool
    requires { SameItemsAsks (contents tables.now) parent at from left }
    ensures { let T = contents tables.now in result ≡ same_items (values_from T at left) (values_from T from left) }
{
    for i in 0..left {
        let a = child_at(tables.children, at + i);
        let b = child_at(tables.children, from + i);
        if !same_value(tables, a, b) {
            return false;
        }
    }
    true
}

// The fields of two objects of as many fields, by the first one's keys.
#[cycle(same_fields_same_items_same_value)]
fn same_fields(tables: &Tables<'_>, a: u32, b: u32) -> bool
    requires { SameFieldsAsks (contents tables.now) a b }
    ensures { let T = contents tables.now in result ≡ same_fields_lem (value_fields_of (fields_of T a)) (value_fields_of (fields_of T b)) }
{
    let first = first_of(tables.nodes, a) as usize;
    let count = count_of(tables.nodes, a) as usize;
    for i in 0..count {
        let place = first + i * 2;
        let key = child_at(tables.children, place);
        let value = child_at(tables.children, place + 1);
        let Some(other) = value_under(tables, b, i, key) else {
            return false;
        };
        if !same_value(tables, value, other) {
            return false;
        }
    }
    true
}
