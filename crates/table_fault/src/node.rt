// What the rules say of one node's words.
ghost use Rattle.table.specs.Contents.{contents};
ghost use Rattle.std.specs.Prelude.{◌≡◌, true, cond, ◌&&◌, [], ◌/◌, ◌≤◌, eqb, leb, length};
ghost use Rattle.table.specs.Tables.{tables, kind_of};
ghost use Rattle.table.specs.Rules.{name_text_ok};
ghost use Rattle.table_fault.specs.Rules.{kind_listed, unused_zero, node_range_ok};

use table::inner::node::{in_range, name_text_ok};
use table::node_kind;
use table::reading::{count_of, first_of, kind_of};
use table::tables::Tables;

pub(crate) fn kind_listed(kind: u32) -> bool
    ensures { result ≡ kind_listed kind }
{
    if kind < 1 {
        return false;
    }
    kind <= 10
}

// Is each word that the kind does not use 0?
pub(crate) fn unused_zero(kind: u32, first: u32, count: u32) -> bool
    ensures { result ≡ unused_zero kind first count }
{
    match kind {
        node_kind::NUMBER => count == 0,
        node_kind::BOOL => count == 0,
        node_kind::NAME => count == 0,
        node_kind::NULL => both_zero(first, count),
        node_kind::OTHER => both_zero(first, count),
        _ => true,
    }
}

fn both_zero(first: u32, count: u32) -> bool
    ensures { result ≡ (eqb first 0 && eqb count 0) }
{
    if first == 0 {
        return count == 0;
    }
    false
}

fn is_name(name: usize, names: usize) -> bool
    ensures { result ≡ (leb 1 name && leb name names) }
{
    if name < 1 {
        return false;
    }
    name <= names
}

// Do first and count lie within what they point into?
pub(crate) fn range_ok(tables: &Tables<'_>, node: u32) -> bool
    ensures { result ≡ node_range_ok (contents tables.now) node }
{
    let first = first_of(tables.nodes, node) as usize;
    let count = count_of(tables.nodes, node) as usize;
    match kind_of(tables.nodes, node) {
        node_kind::STRING => in_range(first, count, tables.strings.len()),
        node_kind::RAW_STRING => in_range(first, count, tables.text.len()),
        node_kind::NUMBER => first < tables.numbers.len() / 2,
        node_kind::BOOL => first <= 1,
        node_kind::NAME => is_name(first, tables.names.len() / 2),
        node_kind::ARRAY => in_range(first, count, tables.children.len()),
        node_kind::SET => in_range(first, count, tables.children.len()),
        node_kind::OBJECT => in_range(first, count * 2, tables.children.len()),
        _ => true,
    }
}

// Is a name node's own text its name's bytes?
pub(crate) fn text_ok(nodes: &[u32], names: &[u32], text: &[u8], node: u32) -> bool
    requires { (1 ≤ node) × (node ≤ length nodes.now / 5) }
    ensures { result ≡ cond (eqb (kind_of nodes.now node) 6) (name_text_ok (tables nodes.now [] [] names.now [] text.now) node) true }
{
    if kind_of(nodes, node) == node_kind::NAME {
        return name_text_ok(nodes, names, text, node as usize - 1);
    }
    true
}
