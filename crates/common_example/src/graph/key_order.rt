// The child list with the fields of each object that is a simple pattern in key order, as a plan has them.
ghost use Rattle.table.specs.Contents.{contents};
ghost use Rattle.std.specs.Prelude.{◌≡◌};
ghost use Rattle.base.specs.Lists.{tabulate};
ghost use Rattle.table.specs.Tables.{child_at};
ghost use Rattle.common_example.specs.code.arrays.KeyOrder.{CopyAsks, FieldsCopied, OrderObjectAsks, OrderNodeAsks, NodeOrdered, OrderChildrenAsks, ChildrenOrdered};

use planner::fields::field_at;
use planner::inner::fields::order_fields;
use table::node_kind;
use table::reading::{child_at, count_of, first_of, kind_of};
use table::tables::Tables;

// The child entries, and 0 past them.
fn copy_children(children: &[u32]) -> [u32; 512]
    ensures { result ≡ tabulate (child_at children.now) 0 512 }
{
    let mut entries = [0u32; 512];
    for i in 0..512 {
        entries[i] = child_at(children, i);
    }
    entries
}

// Keys and values of fields, in an order of field numbers.
fn copy_fields(
    children: &[u32],
    order: &[u8; 256],
    first: usize,
    count: usize,
    entries: &mut [u32; 512],
)
    requires { CopyAsks order.now first count entries.old }
    ensures { FieldsCopied children.now order.now first count entries.old entries.new }
{
    let words = count * 2;
    for j in 0..words {
        let field = field_at(order, j / 2);
        entries[first + j] = child_at(children, first + field * 2 + j % 2);
    }
}

// An object that is a simple pattern: as many fields in order as it has.
fn order_object(tables: &Tables<'_>, node: u32, entries: &mut [u32; 512])
    requires { OrderObjectAsks (contents tables.now) node entries.old }
    ensures { NodeOrdered (contents tables.now) node entries.old entries.new }
{
    let first = first_of(tables.nodes, node) as usize;
    let count = count_of(tables.nodes, node) as usize;
    let mut order = [0u8; 256];
    let total = order_fields(tables, first, count, &mut order);
    copy_fields(tables.children, &order, first, total as usize, entries);
}

// `marks` has 1 for each simple pattern.
fn order_node(tables: &Tables<'_>, marks: &[u8; 512], node: u32, entries: &mut [u32; 512])
    requires { OrderNodeAsks (contents tables.now) marks.now node entries.old }
    ensures { NodeOrdered (contents tables.now) node entries.old entries.new }
{
    if marks[node as usize - 1] != 1 {
        return;
    }
    if kind_of(tables.nodes, node) != node_kind::OBJECT {
        return;
    }
    order_object(tables, node, entries);
}

pub(crate) fn order_children(tables: &Tables<'_>, marks: &[u8; 512]) -> [u32; 512]
    requires { OrderChildrenAsks (contents tables.now) marks.now }
    ensures { ChildrenOrdered (contents tables.now) result }
{
    let mut entries = copy_children(tables.children);
    let count = tables.nodes.len() / 5;
    for n in 0..count {
        order_node(tables, marks, (n + 1) as u32, &mut entries);
    }
    entries
}
