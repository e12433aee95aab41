// For each literal's node the lowest-numbered node of an equal literal: what a literal is told by, and what is copied of it.
ghost use Rattle.table.specs.Contents.{contents};
ghost use Rattle.std.specs.Prelude.{◌≡◌};
ghost use Rattle.table.specs.Tables.{node_count};
ghost use Rattle.table.specs.Decode.{literal_at};
ghost use Rattle.common_example.specs.code.arrays.Distinct.{FindAsks, LiteralFound, AddAsks, NodeAdded};
ghost use Rattle.common_example.specs.code.arrays.Likes.{likes, LikesAsks};

use base::inner::binary_search::search_by;
use base::insertion::insert_at;
use literal::order::ordering_of;
use table::reading::compare_literals;
use table::tables::Tables;
use value::inner::fields::same_literals;

// The lowest node of a literal, and how many literals are in order.
#[derive(Clone, Copy)]
struct Added {
    pub like: u32,
    pub count: usize,
}

// The place of an equal literal among `count` in key order, or the place where a new one goes in.
fn find_literal(
    tables: &Tables<'_>,
    node: u32,
    order: &[u32; 512],
    count: usize,
) -> Result<usize, usize>
    requires { FindAsks (literal_at (contents tables.now)) node order.now count }
    ensures { LiteralFound (literal_at (contents tables.now)) node order.now count result }
{
    search_by(&order[..count], |&other| {
        let way = compare_literals(
            tables.nodes,
            tables.numbers,
            tables.strings,
            tables.text,
            node,
            other,
        );
        ordering_of(way).reverse()
    })
}

// One more node; one that is not equal to itself is no literal, and has 0.
fn add_node(tables: &Tables<'_>, node: u32, order: &mut [u32; 512], count: usize) -> Added
    requires { AddAsks (literal_at (contents tables.now)) node order.old count }
    ensures { NodeAdded (literal_at (contents tables.now)) node order.new result.count result.like }
{
    if !same_literals(tables, node, node) {
        return Added { like: 0, count };
    }
    match find_literal(tables, node, order, count) {
        Ok(place) => Added {
            like: order[place],
            count,
        },
        Err(place) => {
            insert_at(order, place, count, node);
            Added {
                like: node,
                count: count + 1,
            }
        }
    }
}

// Node n at place n - 1, and 0 past the nodes.
pub(crate) fn like_nodes(tables: &Tables<'_>) -> [u32; 512]
    requires { LikesAsks tables.now.nodes.now }
    ensures { let T = contents tables.now in result ≡ likes (literal_at T) (node_count T) }
{
    let mut like = [0u32; 512];
    let mut order = [0u32; 512];
    let mut literals: usize = 0;
    let count = tables.nodes.len() / 5;
    for i in 0..count {
        let node = (i + 1) as u32;
        let added = add_node(tables, node, &mut order, literals);
        like[i] = added.like;
        literals = added.count;
    }
    like
}
