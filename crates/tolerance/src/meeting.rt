// Can a pattern, or a value, be equal to a value? Structure aside, each two numbers that must be equal are put into one class; a name is set to the node that it meets first.
ghost use Rattle.table.specs.Contents.{contents};
ghost use Rattle.std.specs.Prelude.{true};
ghost use Rattle.tolerance.specs.code.Post.{EquatedIn, LiteralAsks, MeetAsks, NameAsks, MeetItemsAsks, MeetFieldsAsks, MetIn, conditions_at, meets_nodes, meets_array, meets_under};

use crate::classes::Classes;
use crate::number::Number;
use run::inner::names::is_wildcard;
use table::node_kind;
use table::reading::{child_at, count_of, first_of, kind_of};
use table::tables::Tables;
use value::inner::fields::{same_literals, value_under};

// A literal and a value. A number of the pattern keeps its own size.
fn meet_literals(tables: &Tables<'_>, classes: &mut Classes, pattern: bool, a: u32, b: u32) -> bool
    requires { LiteralAsks (contents tables.now) a b }
    ensures { let T = contents tables.now in EquatedIn classes (conditions_at T pattern a b) result }
{
    if kind_of(tables.nodes, a) != node_kind::NUMBER {
        return same_literals(tables, a, b);
    }
    if kind_of(tables.nodes, b) != node_kind::NUMBER {
        return same_literals(tables, a, b);
    }
    if pattern {
        let number = Number::read(tables.numbers, first_of(tables.nodes, a));
        return classes.fix(b, number);
    }
    classes.join(a, b)
}

// `pattern`: a number of the first side keeps its own size, else it has its node's. A flag and no closure: one test asks for it, and a name's value goes on without.
#[cycle(meet_meet_fields_meet_items_meet_name)]
pub(crate) fn meet(
    tables: &Tables<'_>,
    list: &mut [u32; 128],
    classes: &mut Classes,
    pattern: bool,
    a: u32,
    b: u32,
) -> bool
    requires { MeetAsks (contents tables.now) pattern a b list.old }
    ensures { let T = contents tables.now in MetIn list classes T (meets_nodes T pattern a b) result }
{
    let kind = kind_of(tables.nodes, a);
    if kind <= node_kind::LAST_LITERAL {
        return meet_literals(tables, classes, pattern, a, b);
    }
    if kind == node_kind::NAME {
        return meet_name(tables, list, classes, a, b);
    }
    if kind_of(tables.nodes, b) != kind {
        return false;
    }
    if count_of(tables.nodes, b) != count_of(tables.nodes, a) {
        return false;
    }
    if kind == node_kind::ARRAY {
        return meet_items(tables, list, classes, pattern, a, b);
    }
    meet_fields(tables, list, classes, pattern, a, b)
}

// A name of the pattern and a value.
#[cycle(meet_meet_fields_meet_items_meet_name)]
fn meet_name(
    tables: &Tables<'_>,
    list: &mut [u32; 128],
    classes: &mut Classes,
    a: u32,
    b: u32,
) -> bool
    requires { NameAsks (contents tables.now) a b list.old }
    ensures { let T = contents tables.now in MetIn list classes T (meets_nodes T true a b) result }
{
    let name = first_of(tables.nodes, a);
    if is_wildcard(tables.names, tables.text, name) {
        return true;
    }
    let place = name as usize - 1;
    let held = list[place];
    if held == 0 {
        list[place] = b;
        return true;
    }
    meet(tables, list, classes, false, held, b)
}

// The items of two arrays of as many.
#[cycle(meet_meet_fields_meet_items_meet_name)]
fn meet_items(
    tables: &Tables<'_>,
    list: &mut [u32; 128],
    classes: &mut Classes,
    pattern: bool,
    a: u32,
    b: u32,
) -> bool
    requires { MeetItemsAsks (contents tables.now) pattern a b list.old }
    ensures { let T = contents tables.now in MetIn list classes T (meets_array T pattern a b) result }
{
    let at = first_of(tables.nodes, a) as usize;
    let from = first_of(tables.nodes, b) as usize;
    let count = count_of(tables.nodes, a) as usize;
    for i in 0..count {
        let item = child_at(tables.children, at + i);
        let other = child_at(tables.children, from + i);
        if !meet(tables, list, classes, pattern, item, other) {
            return false;
        }
    }
    true
}

// The fields of two objects of as many fields, by the first one's keys.
#[cycle(meet_meet_fields_meet_items_meet_name)]
fn meet_fields(
    tables: &Tables<'_>,
    list: &mut [u32; 128],
    classes: &mut Classes,
    pattern: bool,
    a: u32,
    b: u32,
) -> bool
    requires { MeetFieldsAsks (contents tables.now) pattern a b list.old }
    ensures { let T = contents tables.now in MetIn list classes T (meets_under T pattern a b) result }
{
    let first = first_of(tables.nodes, a) as usize;
    let count = count_of(tables.nodes, a) as usize;
    for i in 0..count {
        let place = first + i * 2;
        let key = child_at(tables.children, place);
        let value = child_at(tables.children, place + 1);
        let Some(other) = value_under(tables, b, i, key) else {
            return false;
        };
        if !meet(tables, list, classes, pattern, value, other) {
            return false;
        }
    }
    true
}
