// The table rules that speak of the nodes.
ghost use Rattle.table.specs.Contents.{contents};
ghost use Rattle.std.specs.Prelude.{◌≡◌, [], ◌/◌, ◌≤◌, length};
ghost use Rattle.table.specs.Tables.{tables};
ghost use Rattle.base.specs.Lists.{all_from};
ghost use Rattle.table.specs.code.Passes.{head_ok_at, children_below_at, NodesAsks, nodes_ok};

use crate::distinct::{distinct_entries, places_apart};
use crate::inner::node::{children_below, span_ok, words_ok};
use crate::tables::Tables;

fn heads_ok(tables: &Tables<'_>) -> bool
    requires { length tables.now.nodes.now / 5 ≤ 512 }
    ensures { result ≡ all_from (head_ok_at (contents tables.now)) 0 (length tables.now.nodes.now / 5) }
{
    let total = tables.nodes.len() / 5;
    for i in 0..total {
        if !span_ok(tables.nodes, tables.text, i) {
            return false;
        }
        if !words_ok(tables, i) {
            return false;
        }
    }
    true
}

fn all_below(nodes: &[u32], children: &[u32]) -> bool
    requires { length nodes.now / 5 ≤ 512 }
    ensures { result ≡ all_from (children_below_at (tables nodes.now children.now [] [] [] [])) 0 (length nodes.now / 5) }
{
    let total = nodes.len() / 5;
    for i in 0..total {
        if !children_below(nodes, children, i) {
            return false;
        }
    }
    true
}

// The children come last: by then no child entry serves two nodes, so each is looked at once.
pub(crate) fn nodes_ok(tables: &Tables<'_>) -> bool
    requires { NodesAsks (contents tables.now) }
    ensures { result ≡ nodes_ok (contents tables.now) }
{
    if !heads_ok(tables) {
        return false;
    }
    if !distinct_entries(tables.children) {
        return false;
    }
    if !places_apart(tables.nodes) {
        return false;
    }
    all_below(tables.nodes, tables.children)
}
