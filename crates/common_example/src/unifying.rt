// The graph of two patterns of a checked table, and its classes with the two roots joined.
ghost use Rattle.table.specs.Contents.{contents};
ghost use Rattle.common_example.specs.code.arrays.Unifying.{LinksFrom, LinksMade, GraphAsks, GraphMade, PatternsAsks, Unifies};

use crate::graph::key_order::order_children;
use crate::graph::likes::like_nodes;
use crate::graph::node_places::{node_place, side_places};
use crate::graph::words::{head_words, link_words};
use crate::graph::{Graph, Joined, LINK_WORDS};
use crate::roots::unify_roots;
use table::tables::Tables;
use value::inner::admitted::mark_nodes;

fn graph_links(
    tables: &Tables<'_>,
    held1: &[u32; 128],
    held2: &[u32; 128],
    marks: &[u8; 512],
    like: &[u32; 512],
    links: &mut [u32; LINK_WORDS],
)
    requires { LinksFrom (contents tables.now) held1.now held2.now marks.now }
    ensures { LinksMade (contents tables.now) held1.now held2.now like.now links.new }
{
    let ordered = order_children(tables, marks);
    let first = side_places(tables, held1, 0);
    let second = side_places(tables, held2, 1);
    link_words(&ordered, &first, &second, like, links);
}

// `held1` and `held2` have for each name number the node of its value on that side, or 0.
pub(crate) fn make_graph(
    tables: &Tables<'_>,
    held1: &[u32; 128],
    held2: &[u32; 128],
    graph: &mut Graph,
)
    requires { GraphAsks (contents tables.now) held1.now held2.now }
    ensures { GraphMade (contents tables.now) held1.now held2.now graph.new.heads graph.new.links }
{
    let marks = mark_nodes(tables, true);
    let like = like_nodes(tables);
    head_words(tables.nodes, &marks, &like, &mut graph.heads);
    graph_links(tables, held1, held2, &marks, &like, &mut graph.links);
}

// False where no value is matched by both.
pub(crate) fn unify_patterns(
    tables: &Tables<'_>,
    held1: &[u32; 128],
    held2: &[u32; 128],
    root1: u32,
    root2: u32,
    joined: &mut Joined,
) -> bool
    requires { PatternsAsks (contents tables.now) held1.now held2.now root1 root2 }
    ensures { Unifies (contents tables.now) held1.now held2.now root1 root2 joined.new.graph.heads joined.new.graph.links joined.new.classes result }
{
    make_graph(tables, held1, held2, &mut joined.graph);
    let a = node_place(tables, held1, root1, 0);
    let b = node_place(tables, held2, root2, 1);
    unify_roots(&joined.graph, &mut joined.classes, a, b)
}
