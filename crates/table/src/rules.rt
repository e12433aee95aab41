// The table rules that speak of the lists and the scope.
ghost use Rattle.table.specs.Contents.{contents};
ghost use Rattle.std.specs.Prelude.{◌≡◌, true, [], ◌/◌, ◌≤◌, length};
ghost use Rattle.table.specs.Tables.{tables};
ghost use Rattle.base.specs.Lists.{all_from};
ghost use Rattle.table.specs.Rules.{within_limits, whole_records, name_ok, name_ok_at, number_ok, entry_ok, scope_ok, follows_rules};
ghost use Rattle.table.specs.code.Passes.{lists_ok};

use crate::inner::node::in_range;
use crate::nodes::nodes_ok;
use crate::reading::{is_node, name_bytes, name_length, name_start, same_bytes};
use crate::tables::Tables;
use literal::is_number;
use scope::Scope;

fn whole_records(nodes: &[u32], numbers: &[u64], names: &[u32]) -> bool
    ensures { result ≡ whole_records (tables nodes.now [] numbers.now names.now [] []) }
{
    if nodes.len() % 5 != 0 {
        return false;
    }
    if numbers.len() % 2 != 0 {
        return false;
    }
    names.len() % 2 == 0
}

// Has a name 1 to 255 bytes of the text?
pub fn name_ok(names: &[u32], text: &[u8], name: u32) -> bool
    ensures { result ≡ name_ok (tables [] [] [] names.now [] text.now) name }
{
    let start = name_start(names, name) as usize;
    let length = name_length(names, name) as usize;
    if length < 1 {
        return false;
    }
    if 255 < length {
        return false;
    }
    in_range(start, length, text.len())
}

fn names_ok(names: &[u32], text: &[u8]) -> bool
    requires { length names.now / 2 ≤ 128 }
    ensures { result ≡ all_from (name_ok_at (tables [] [] [] names.now [] text.now)) 0 (length names.now / 2) }
{
    let total = names.len() / 2;
    for i in 0..total {
        if !name_ok(names, text, (i + 1) as u32) {
            return false;
        }
    }
    true
}

fn numbers_ok(numbers: &[u64]) -> bool
    ensures { result ≡ all_from (number_ok (tables [] [] numbers.now [] [] [])) 0 (length numbers.now / 2) }
{
    let total = numbers.len() / 2;
    for i in 0..total {
        if !is_number(numbers[i * 2], numbers[i * 2 + 1]) {
            return false;
        }
    }
    true
}

// Every child entry, used or not.
fn entries_ok(nodes: &[u32], children: &[u32]) -> bool
    ensures { result ≡ all_from (entry_ok (tables nodes.now children.now [] [] [] [])) 0 (length children.now) }
{
    for place in 0..children.len() {
        if !is_node(nodes, children[place]) {
            return false;
        }
    }
    true
}

fn lists_ok(nodes: &[u32], children: &[u32], numbers: &[u64], names: &[u32], text: &[u8]) -> bool
    requires { length names.now / 2 ≤ 128 }
    ensures { result ≡ lists_ok (tables nodes.now children.now numbers.now names.now [] text.now) }
{
    if !whole_records(nodes, numbers, names) {
        return false;
    }
    if !names_ok(names, text) {
        return false;
    }
    if !numbers_ok(numbers) {
        return false;
    }
    entries_ok(nodes, children)
}

fn scope_ok(names: &[u32], text: &[u8], scope: Scope) -> bool
    ensures { result ≡ scope_ok (tables [] [] [] names.now [] text.now) scope }
{
    let underscore = scope.underscore;
    if underscore == 0 {
        return true;
    }
    if names.len() / 2 < underscore as usize {
        return false;
    }
    same_bytes(name_bytes(names, text, underscore), b"_")
}

pub(crate) fn follows_rules(tables: &Tables<'_>, scope: Scope) -> bool
    requires { within_limits (contents tables.now) ≡ true }
    ensures { result ≡ follows_rules (contents tables.now) scope }
{
    if !lists_ok(
        tables.nodes,
        tables.children,
        tables.numbers,
        tables.names,
        tables.text,
    ) {
        return false;
    }
    if !nodes_ok(tables) {
        return false;
    }
    scope_ok(tables.names, tables.text, scope)
}
