// What a run turns back before it plans: a pattern that is not simple, a node that is no value.
ghost use Rattle.table.specs.Contents.{contents};
ghost use Rattle.std.specs.Prelude.{◌/◌, ◌≤◌, ◌≡◌, ◌&&◌, length};
ghost use Rattle.table.specs.Decode.{expr};
ghost use Rattle.planner.specs.code.Post.{GoodRoot};
ghost use Rattle.planner.specs.Simple.{simple};
ghost use Rattle.value.specs.Value.{is_value};
ghost use Rattle.run.specs.Operations.{values_listed};
ghost use Rattle.run.specs.code.ChecksPost.{marked_node, marked_if_listed, all_marked, ValuesAsks, AllAsks};

use table::reading::is_node;
use table::tables::Tables;
use value::inner::admitted::mark_nodes;

pub fn is_simple(tables: &Tables<'_>, node: u32) -> bool
    requires { GoodRoot (contents tables.now) node }
    ensures { result ≡ simple (expr (contents tables.now) node) }
{
    let marks = mark_nodes(tables, true);
    marks[node as usize - 1] == 1
}

// Is a number that of a value's node, by the marks?
fn is_value(nodes: &[u32], marks: &[u8; 512], node: u32) -> bool
    requires { length nodes.now / 5 ≤ 512 }
    ensures { result ≡ marked_node nodes.now marks.now node }
{
    if is_node(nodes, node) {
        return marks[node as usize - 1] == 1;
    }
    false
}

// A listed node is 0 or that of a value.
fn is_listed_value(nodes: &[u32], marks: &[u8; 512], node: u32) -> bool
    requires { length nodes.now / 5 ≤ 512 }
    ensures { result ≡ marked_if_listed nodes.now marks.now node }
{
    if node == 0 {
        return true;
    }
    is_value(nodes, marks, node)
}

pub fn values_listed(nodes: &[u32], names: &[u32], marks: &[u8; 512], values: &[u32]) -> bool
    requires { ValuesAsks nodes.now names.now values.now }
    ensures { result ≡ all_marked nodes.now names.now marks.now values.now }
{
    let count = names.len() / 2;
    for i in 0..count {
        if !is_listed_value(nodes, marks, values[i]) {
            return false;
        }
    }
    true
}

// Are the value and every listed node values?
pub(crate) fn all_values(tables: &Tables<'_>, value: u32, values: &[u32]) -> bool
    requires { AllAsks (contents tables.now) value values.now }
    ensures { let T = contents tables.now in result ≡ (is_value (expr T value) && values_listed T values.now) }
{
    let marks = mark_nodes(tables, false);
    if !is_value(tables.nodes, &marks, value) {
        return false;
    }
    values_listed(tables.nodes, tables.names, &marks, values)
}
