// The place of a node's value on a side: n * 4 is node n on the first, n * 4 + 1 on the second; n * 4 + 2 and n * 4 + 3 are name n.
ghost use Rattle.table.specs.Contents.{contents};
ghost use Rattle.std.specs.Prelude.{◌≡◌};
ghost use Rattle.table.specs.Tables.{name_bytes};
ghost use Rattle.table.specs.Names.{same_bytes, underscore_bytes};
ghost use Rattle.common_example.specs.code.arrays.NodePlaces.{NamePlaceAsks, name_place_in, NodePlaceAsks, node_place, SidePlacesAsks, side_places};

use table::reading::{first_of, kind_of, name_class};
use table::tables::Tables;
use table::{NameClass, node_kind};

fn is_underscore(names: &[u32], text: &[u8], name: u32) -> bool
    ensures { result ≡ same_bytes (name_bytes names.now text.now name) underscore_bytes }
{
    let class = name_class(names, text, name);
    match class {
        NameClass::Underscore => true,
        NameClass::InputOrData => false,
        NameClass::Ordinary => false,
    }
}

// `held` has for each name number the node of its value, or 0.
fn name_place(names: &[u32], text: &[u8], held: &[u32; 128], name: u32, node: u32, side: u32) -> u32
    requires { NamePlaceAsks held.now name node side }
    ensures { result ≡ name_place_in names.now text.now held.now name node side }
{
    if is_underscore(names, text, name) {
        return node * 4 + side;
    }
    let value = held[name as usize - 1];
    if value == 0 {
        return name * 4 + 2 + side;
    }
    value * 4 + side
}

pub(crate) fn node_place(tables: &Tables<'_>, held: &[u32; 128], node: u32, side: u32) -> u32
    requires { NodePlaceAsks (contents tables.now) held.now node side }
    ensures { result ≡ node_place tables.now.nodes.now tables.now.names.now tables.now.text.now held.now node side }
{
    if kind_of(tables.nodes, node) == node_kind::NAME {
        return name_place(
            tables.names,
            tables.text,
            held,
            first_of(tables.nodes, node),
            node,
            side,
        );
    }
    node * 4 + side
}

// The places of all nodes on a side: node n at place n - 1, and 0 past the nodes.
pub(crate) fn side_places(tables: &Tables<'_>, held: &[u32; 128], side: u32) -> [u32; 512]
    requires { SidePlacesAsks (contents tables.now) held.now side }
    ensures { result ≡ side_places tables.now.nodes.now tables.now.names.now tables.now.text.now held.now side }
{
    let mut places = [0u32; 512];
    let count = tables.nodes.len() / 5;
    for i in 0..count {
        places[i] = node_place(tables, held, (i + 1) as u32, side);
    }
    places
}
