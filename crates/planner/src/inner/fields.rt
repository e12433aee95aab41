// The fields of a checked table's object in plan order: literal keys in key order, the last of a repeated key, then computed ones as written.
ghost use Rattle.table.specs.Contents.{contents};
ghost use Rattle.table.specs.Lent.{lent_literal, lent_referred};
ghost use Rattle.std.specs.Prelude.{◌≡◌, ◌+◌, ◌*◌, ◌<◌, ◌^◌};
ghost use Rattle.literal.specs.Order.{compared};
ghost use Rattle.table.specs.Tables.{child_at};
ghost use Rattle.planner.specs.code.Post.{OrderAsks, Arranged};
ghost use Rattle.planner.specs.code.Ordering.{FieldAdded, FindAsks, FoundIn, AddAsks};

use crate::fields::wide;
use base::inner::binary_search::search_by;
use base::insertion::insert_at;
use literal::order::ordering_of;
use literal::{Comparison, LiteralRef};
use table::Key;
use table::reading::{child_at, compare_literal_to_node, extract_literal_key};
use table::tables::Tables;

// How many of the fields in order have literal keys, and how many there are.
#[derive(Clone, Copy)]
struct Sizes {
    pub literals: usize,
    pub total: usize,
}

// A literal with the key of a field.
fn compare_keys<'a>(
    nodes: &[u32],
    children: &[u32],
    numbers: &[u64],
    strings: &'a [u8],
    text: &'a [u8],
    first: usize,
    key: LiteralRef,
    j: usize,
) -> Comparison
    requires { first + j * 2 < 2 ^ 64 }
    ensures { result ≡ compared (lent_referred numbers strings text key) (lent_literal nodes numbers strings text (child_at children.now (first + j * 2))) }
{
    let other = child_at(children, first + j * 2);
    compare_literal_to_node(nodes, numbers, strings, text, key, other)
}

// The place of an equal key among the literal fields, or the place where a new key goes in.
pub fn find_field(
    tables: &Tables<'_>,
    first: usize,
    order: &[u8; 256],
    literals: usize,
    key: LiteralRef,
) -> Result<usize, usize>
    requires { FindAsks (contents tables.now) first order.now literals key }
    ensures { FoundIn (contents tables.now) first key order.now literals result }
{
    search_by(&order[..literals], |&field| {
        let way = compare_keys(
            tables.nodes,
            tables.children,
            tables.numbers,
            tables.strings,
            tables.text,
            first,
            key,
            wide(field),
        );
        ordering_of(way).reverse()
    })
}

// One more field: by its literal key, replacing an equal one, or at the end if its key is computed.
fn add_field(
    tables: &Tables<'_>,
    first: usize,
    field: u8,
    order: &mut [u8; 256],
    sizes: Sizes,
) -> Sizes
    requires { AddAsks (contents tables.now) first field order.old sizes.literals sizes.total }
    ensures { FieldAdded (contents tables.now) first field order.old sizes.total order.new result.literals result.total }
{
    let total = sizes.total;
    let literals = sizes.literals;
    let at = field as usize;
    let node = child_at(tables.children, first + at * 2);
    let Key::Literal(key) = extract_literal_key(tables.nodes, node) else {
        insert_at(order, total, total, field);
        return Sizes {
            literals,
            total: total + 1,
        };
    };
    match find_field(tables, first, order, literals, key) {
        Ok(place) => {
            order[place] = field;
            sizes
        }
        Err(place) => {
            insert_at(order, place, total, field);
            Sizes {
                literals: literals + 1,
                total: total + 1,
            }
        }
    }
}

// The fields of an object whose child entries start at `first`; how many are in order.
pub fn order_fields(tables: &Tables<'_>, first: usize, count: usize, order: &mut [u8; 256]) -> u32
    requires { OrderAsks (contents tables.now) first count }
    ensures { Arranged (contents tables.now) first count order.old order.new result }
{
    let mut sizes = Sizes {
        literals: 0,
        total: 0,
    };
    for i in 0..count {
        sizes = add_field(tables, first, i as u8, order, sizes);
    }
    sizes.total as u32
}
