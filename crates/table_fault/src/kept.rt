// Whether a rule is kept at a place.
ghost use Rattle.table.specs.Contents.{contents};
ghost use Rattle.std.specs.Prelude.{◌≡◌, [], ◌/◌, ◌<◌, ◌≤◌, length};
ghost use Rattle.table.specs.Tables.{tables};
ghost use Rattle.table.specs.Rules.{number_ok};
ghost use Rattle.table_fault.specs.Rules.{mark_ok_at};
ghost use Rattle.table_fault.specs.code.Asking.{kept_at, Asked, NodeAsked};

use crate::node::{kind_listed, range_ok, text_ok, unused_zero};
use crate::repeats::{has_new_places, is_new_entry, is_new_name};
use crate::rule;
use literal::is_number;
use table::inner::depth::depths_ok;
use table::inner::node::{children_below, span_ok};
use table::reading::{child_at, count_of, first_of, is_node, kind_of};
use table::rules::name_ok;
use table::tables::Tables;

// Rules 1 to 9, of the tables as a whole.
fn whole_kept(tables: &Tables<'_>, rule: u32) -> bool
    requires { (1 ≤ rule) × (rule ≤ 9) }
    ensures { result ≡ kept_at (contents tables.now) [] rule 0 }
{
    match rule {
        rule::MOST_NODES => tables.nodes.len() / 5 <= 512,
        rule::MOST_CHILDREN => tables.children.len() <= 512,
        rule::MOST_NUMBERS => tables.numbers.len() / 2 <= 256,
        rule::MOST_NAMES => tables.names.len() / 2 <= 128,
        rule::MOST_STRING_BYTES => tables.strings.len() <= 8192,
        rule::MOST_TEXT_BYTES => tables.text.len() <= 16384,
        rule::NODE_WORDS => tables.nodes.len() % 5 == 0,
        rule::NUMBER_WORDS => tables.numbers.len() % 2 == 0,
        _ => tables.names.len() % 2 == 0,
    }
}

fn number_ok(numbers: &[u64], place: usize) -> bool
    requires { place < length numbers.now / 2 }
    ensures { result ≡ number_ok (tables [] [] numbers.now [] [] []) place }
{
    is_number(numbers[place * 2], numbers[place * 2 + 1])
}

fn mark_ok(marks: &[u8], i: usize) -> bool
    ensures { result ≡ mark_ok_at marks.now i }
{
    if marks.len() <= i {
        return true;
    }
    marks[i] <= 31
}

// Rules 13 to 18, of one node.
fn node_kept(tables: &Tables<'_>, rule: u32, node: u32) -> bool
    requires { NodeAsked (contents tables.now) rule node }
    ensures { result ≡ kept_at (contents tables.now) [] rule node }
{
    let i = node as usize - 1;
    match rule {
        rule::KIND => kind_listed(kind_of(tables.nodes, node)),
        rule::SOURCE => span_ok(tables.nodes, tables.text, i),
        rule::UNUSED_WORD => unused_zero(
            kind_of(tables.nodes, node),
            first_of(tables.nodes, node),
            count_of(tables.nodes, node),
        ),
        rule::RANGE => range_ok(tables, node),
        rule::NAME_TEXT => text_ok(tables.nodes, tables.names, tables.text, node),
        _ => children_below(tables.nodes, tables.children, i),
    }
}

// The other rules.
fn other_kept(tables: &Tables<'_>, marks: &[u8], rule: u32, place: u32) -> bool
    requires { Asked (contents tables.now) marks.now rule place × (9 < rule) }
    ensures { result ≡ kept_at (contents tables.now) marks.now rule place }
{
    let i = place as usize - 1;
    match rule {
        rule::NAME_RANGE => name_ok(tables.names, tables.text, place),
        rule::NUMBER => number_ok(tables.numbers, i),
        rule::CHILD_NUMBER => is_node(tables.nodes, child_at(tables.children, i)),
        rule::CHILD_TWICE => is_new_entry(tables.children, i),
        rule::CHILD_SHARED => has_new_places(tables.nodes, place),
        rule::MARK => mark_ok(marks, i),
        rule::DEPTH => depths_ok(tables.nodes, tables.children, place as usize),
        rule::EQUAL_NAMES => is_new_name(tables.names, tables.text, place),
        _ => node_kept(tables, rule, place),
    }
}

// Asked only where all rules before are kept, and this rule at all places before.
pub(crate) fn is_kept(tables: &Tables<'_>, marks: &[u8], rule: u32, place: u32) -> bool
    requires { Asked (contents tables.now) marks.now rule place }
    ensures { result ≡ kept_at (contents tables.now) marks.now rule place }
{
    if rule <= rule::LAST_WHOLE {
        return whole_kept(tables, rule);
    }
    other_kept(tables, marks, rule, place)
}
