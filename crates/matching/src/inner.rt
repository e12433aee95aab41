// Each asks for a checked table. A plan is carried out entry by entry; an entry's children are taken by their positions, so items and fields as written.
ghost use Rattle.table.specs.Contents.{contents};
ghost use Rattle.std.specs.Prelude.{◌-◌, ◌≡◌, set};
ghost use Rattle.table.specs.Tables.{first_word_of};
ghost use Rattle.table.specs.Decode.{expr};
ghost use Rattle.value.specs.Value.{value_of, same};
ghost use Rattle.planner.specs.code.Post.{NameNumber};
ghost use Rattle.matching.specs.code.Post.{held_value, EntryAsks, ItemsAsks, FieldsAsks, CameIn, CompareAsks, PatternAsks, PatternCame};

use crate::links::{LinkedPlan, link_entries};
use planner::buffer::{ENTRY_WORDS, PATTERN_WORDS};
use planner::entry_kind;
use table::node_kind;
use table::reading::{child_at, count_of, first_of, kind_of};
use table::tables::Tables;
use value::inner::equality::same_value;
use value::inner::fields::{same_key_sets, value_under};

// Sets the name at a node to a value's node.
fn bind_name(nodes: &[u32], list: &mut [u32; 128], node: u32, value: u32)
    requires { NameNumber (first_word_of nodes.now node) }
    ensures { list.new ≡ set list.old (first_word_of nodes.now node - 1) value }
{
    let name = first_of(nodes, node) as usize;
    list[name - 1] = value;
}

// Is a value equal to that of the name at a node?
fn equals_name(tables: &Tables<'_>, list: &[u32; 128], node: u32, value: u32) -> bool
    requires { CompareAsks (contents tables.now) list.now node value }
    ensures { let T = contents tables.now in result ≡ same (held_value T list.now node) (value_of (expr T value)) }
{
    let name = first_of(tables.nodes, node) as usize;
    let held = list[name - 1];
    same_value(tables, held, value)
}

// One entry, carried out on a value: `rest` levels of depth are left.
#[cycle(match_entry_match_fields_match_items)]
fn match_entry(
    tables: &Tables<'_>,
    plan: &LinkedPlan<'_>,
    at: usize,
    value: u32,
    rest: usize,
    list: &mut [u32; 128],
) -> bool
    requires { EntryAsks (contents tables.now) plan.now.scratch.now plan.now.links.now.starts plan.now.links.now.entries at value rest list.old }
    ensures { let T = contents tables.now in CameIn list T plan.now.scratch.now at value result }
{
    let kind = plan.scratch[at * ENTRY_WORDS];
    let node = plan.scratch[at * ENTRY_WORDS + 1];
    if kind == entry_kind::BIND {
        bind_name(tables.nodes, list, node, value);
        return true;
    }
    if kind == entry_kind::IGNORE {
        return true;
    }
    if kind == entry_kind::COMPARE_EXPRESSION {
        return equals_name(tables, list, node, value);
    }
    if kind == entry_kind::COMPARE_LITERAL {
        return same_value(tables, node, value);
    }
    let count = plan.scratch[at * ENTRY_WORDS + 2];
    if kind == entry_kind::ARRAY {
        return match_items(tables, plan, at, count, value, rest - 1, list);
    }
    match_fields(tables, plan, at, count, value, rest - 1, list)
}

// An array needs an array of its length, then takes the items.
#[cycle(match_entry_match_fields_match_items)]
fn match_items(
    tables: &Tables<'_>,
    plan: &LinkedPlan<'_>,
    at: usize,
    count: u32,
    value: u32,
    rest: usize,
    list: &mut [u32; 128],
) -> bool
    requires { ItemsAsks (contents tables.now) plan.now.scratch.now plan.now.links.now.starts plan.now.links.now.entries at count value rest list.old }
    ensures { let T = contents tables.now in CameIn list T plan.now.scratch.now at value result }
{
    if kind_of(tables.nodes, value) != node_kind::ARRAY {
        return false;
    }
    if count_of(tables.nodes, value) != count {
        return false;
    }
    let start = plan.links.starts[at] as usize;
    let from = first_of(tables.nodes, value) as usize;
    for i in 0..count {
        let item = plan.links.entries[start + i as usize] as usize;
        let part = child_at(tables.children, from + i as usize);
        if !match_entry(tables, plan, item, part, rest, list) {
            return false;
        }
    }
    true
}

// An object needs an object of equal key set, then takes the fields as written.
#[cycle(match_entry_match_fields_match_items)]
fn match_fields(
    tables: &Tables<'_>,
    plan: &LinkedPlan<'_>,
    at: usize,
    count: u32,
    value: u32,
    rest: usize,
    list: &mut [u32; 128],
) -> bool
    requires { FieldsAsks (contents tables.now) plan.now.scratch.now plan.now.links.now.starts plan.now.links.now.entries at count value rest list.old }
    ensures { let T = contents tables.now in CameIn list T plan.now.scratch.now at value result }
{
    if kind_of(tables.nodes, value) != node_kind::OBJECT {
        return false;
    }
    let node = plan.scratch[at * ENTRY_WORDS + 1];
    if !same_key_sets(tables, node, value) {
        return false;
    }
    let start = plan.links.starts[at] as usize;
    for i in 0..count {
        let field = plan.links.entries[start + i as usize] as usize;
        let key = plan.scratch[field * ENTRY_WORDS + 3];
        let part = value_under(tables, value, i as usize, key).unwrap();
        if !match_entry(tables, plan, field, part, rest, list) {
            return false;
        }
    }
    true
}

// The first `count` entries of the scratch, carried out from the first one on.
// `Ok` is a match, with the values of the names after it, `Err` a miss, with those at the start.
pub fn match_pattern(
    tables: &Tables<'_>,
    scratch: &[u32; PATTERN_WORDS],
    count: usize,
    value: u32,
    start: [u32; 128],
) -> Result<[u32; 128], [u32; 128]>
    requires { PatternAsks (contents tables.now) scratch.now count value start }
    ensures { PatternCame (contents tables.now) scratch.now count value start result }
{
    let links = link_entries(scratch, count);
    let plan = LinkedPlan {
        scratch,
        links: &links,
    };
    let mut list = start;
    if match_entry(tables, &plan, 0, value, 32, &mut list) {
        return Ok(list);
    }
    Err(start)
}
