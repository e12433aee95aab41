// The value of a class, written into two lists: children before parents, a parent's child entries when its node is written.
ghost use Rattle.std.specs.Prelude.{◌≡◌, ◌*◌, ◌<◌};
ghost use Rattle.std.proofs.lemmas.List.Edits.{sets};
ghost use Rattle.common_example.specs.code.Graph.{shape_kind, step_of};
ghost use Rattle.common_example.specs.code.Writing.{literal_entry, key_count, parent_kind, LiteralAsks, KeyAsks, KeyWritten, KeyNumberAsks, KeyNumbered, NumberAsksIn, numbers_of, leaf_node, ParentAsksIn, ParentWrittenIn, PlaceAsksIn, PlaceWrittenIn, PartsAsksIn, PartsWrittenIn};

use crate::classes::class_of;
use crate::graph::{Graph, Joined, PLACES, Parts, Shape, known};
use crate::levels::size_at;
use planner::buffer::put_entry;
use table::node_kind;
use table::reading::{count_of, first_of, kind_of};

// What a value is written from: the tables' nodes, the classes and the sizes of their values, and how many nodes and child entries stand before it.
#[derive(Clone, Copy)]
pub(crate) struct Source<'a> {
    pub nodes: &'a [u32],
    pub joined: &'a Joined,
    pub sizes: &'a [u16; PLACES],
    pub before: u32,
    pub entries: u32,
}

// Kind, first and count of a literal's node; null for 0.
fn write_literal(nodes: &[u32], literal: u32, at: u32, out: &mut [u32])
    requires { LiteralAsks at out.old }
    ensures { out.new ≡ sets out.old (at * 5) (literal_entry nodes.now literal) }
{
    if literal == 0 {
        put_entry(out, at as usize, node_kind::NULL, 0, 0, 0, 0);
        return;
    }
    let kind = kind_of(nodes, literal);
    let first = first_of(nodes, literal);
    let count = count_of(nodes, literal);
    put_entry(out, at as usize, kind, 0, 0, first, count);
}

// The key of a field, before its value; an item has none.
fn write_key(source: &Source<'_>, shape: Shape, link: usize, at: u32, out: &mut [u32]) -> u32
    requires { KeyAsks (step_of shape) link at out.old }
    ensures { KeyWritten source.now.nodes.now source.now.joined.now.graph.links (step_of shape) link at out.old out.new result }
{
    match shape {
        Shape::Items => at,
        Shape::Fields => {
            write_literal(source.nodes, source.joined.graph.links[link - 2], at, out);
            at + 1
        }
    }
}

// A field has a key's node before its value's.
fn key_count(shape: Shape) -> u32
    ensures { result ≡ key_count (step_of shape) }
{
    match shape {
        Shape::Items => 0,
        Shape::Fields => 1,
    }
}

// The key's number among its object's child entries; an item has none.
fn number_key(shape: Shape, before: u32, entry: u32, children: &mut [u32]) -> u32
    requires { KeyNumberAsks (step_of shape) before entry children.old }
    ensures { KeyNumbered (step_of shape) before entry children.old children.new result }
{
    match shape {
        Shape::Items => entry,
        Shape::Fields => {
            children[entry as usize] = before + 1;
            entry + 1
        }
    }
}

// The child entries of a parent: its parts' own nodes, after `before` nodes.
fn number_parts(source: &Source<'_>, parts: Parts, before: u32, entry: u32, children: &mut [u32])
    requires { NumberAsksIn source.now parts before entry children.old }
    ensures { children.new ≡ sets children.old entry (numbers_of source.now parts before) }
{
    let mut from = parts.link;
    let mut node = before;
    let mut to = entry;
    for _part in 0..parts.count {
        let value = number_key(parts.shape, node, to, children);
        node = node
            + key_count(parts.shape)
            + size_at(source.sizes, source.joined.graph.links[from]);
        children[value as usize] = node;
        to = value + 1;
        from += parts.shape.step();
    }
}

fn parent_kind(shape: Shape) -> u32
    ensures { result ≡ parent_kind (shape_kind shape) }
{
    match shape {
        Shape::Items => node_kind::ARRAY,
        Shape::Fields => node_kind::OBJECT,
    }
}

// The literal of a class that has one; 0 of a free one.
fn leaf_node(graph: &Graph, class: u32) -> u32
    requires { class < 2052 }
    ensures { result ≡ leaf_node graph.now.heads class }
{
    if graph.kind_at(class) == known::LITERAL {
        return graph.start_at(class);
    }
    0
}

// The parent's own node, and its child entries from `end` on, when its parts are written from node `first` on.
fn write_parent(
    source: &Source<'_>,
    parts: Parts,
    first: u32,
    node: u32,
    end: u32,
    out: &mut [u32],
    children: &mut [u32],
)
    requires { ParentAsksIn source.now parts first node end out.old children.old }
    ensures { ParentWrittenIn source.now parts first node end out children }
{
    number_parts(source, parts, source.before + first, end, children);
    put_entry(
        out,
        node as usize,
        parent_kind(parts.shape),
        0,
        0,
        source.entries + end,
        parts.count,
    );
}

// Items, or fields with their keys; how many child entries then stand in the list.
#[cycle(write_parts_write_place)]
fn write_parts(
    source: &Source<'_>,
    parts: Parts,
    rest: u32,
    at: u32,
    entry: u32,
    out: &mut [u32],
    children: &mut [u32],
) -> u32
    requires { PartsAsksIn source.now parts rest at entry out.old children.old }
    ensures { PartsWrittenIn source.now parts rest at entry out children result }
{
    let mut from = parts.link;
    let mut to = at;
    let mut end = entry;
    for _part in 0..parts.count {
        let place = source.joined.graph.links[from];
        let value = write_key(source, parts.shape, from, to, out);
        write_place(source, place, rest, value, end, out, children);
        let size = size_at(source.sizes, place);
        to = value + size;
        end += size - 1;
        from += parts.shape.step();
    }
    end
}

// The value of a place's class, of at most `rest` levels: its nodes from node `at` on, its child entries from `entry` on.
#[cycle(write_parts_write_place)]
pub(crate) fn write_place(
    source: &Source<'_>,
    place: u32,
    rest: u32,
    at: u32,
    entry: u32,
    out: &mut [u32],
    children: &mut [u32],
)
    requires { PlaceAsksIn source.now place rest at entry out.old children.old }
    ensures { PlaceWrittenIn source.now place rest at entry out children }
{
    let class = class_of(&source.joined.classes, place);
    let Some(parts) = source.joined.graph.parts_at(class) else {
        write_literal(
            source.nodes,
            leaf_node(&source.joined.graph, class),
            at,
            out,
        );
        return;
    };
    let end = write_parts(source, parts, rest - 1, at, entry, out, children);
    let node = at + size_at(source.sizes, place) - 1;
    write_parent(source, parts, at, node, end, out, children);
}
