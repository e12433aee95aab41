// What is known of each place, and the links to its parts.
ghost use Rattle.std.specs.Prelude.{◌≤◌, ◌≡◌};
ghost use Rattle.base.specs.Lists.{tabulate};
ghost use Rattle.common_example.specs.code.arrays.Arrays.{of_node, link_word, head_kind, head_start, head_count, HeadAsks, head_part, head_word_at, HeadsAsks};

use crate::graph::{HEAD_WORDS, LINK_WORDS, known};
use table::node_kind;
use table::reading::{child_at, count_of, first_of, kind_of};

// The word of a node, in a list by node numbers; 0 for node 0.
fn of_node(list: &[u32], node: u32) -> u32
    ensures { result ≡ of_node list.now node }
{
    if node == 0 {
        return 0;
    }
    child_at(list, node as usize - 1)
}

// Four words a child entry: its place on each side, and twice the node of its literal.
fn link_word(ordered: &[u32], first: &[u32], second: &[u32], like: &[u32], i: usize) -> u32
    ensures { result ≡ link_word ordered.now first.now second.now like.now i }
{
    let node = child_at(ordered, i / 4);
    let way = i % 4;
    if way == 0 {
        return of_node(first, node);
    }
    if way == 1 {
        return of_node(second, node);
    }
    of_node(like, node)
}

pub(crate) fn link_words(
    ordered: &[u32],
    first: &[u32],
    second: &[u32],
    like: &[u32],
    links: &mut [u32; LINK_WORDS],
)
    ensures { links.new ≡ tabulate (link_word ordered.now first.now second.now like.now) 0 2048 }
{
    *links = [0u32; LINK_WORDS];
    for i in 0..LINK_WORDS {
        links[i] = link_word(ordered, first, second, like, i);
    }
}

// What a node's kind says of its place.
fn head_kind(kind: u32) -> u32
    ensures { result ≡ head_kind kind }
{
    if kind <= node_kind::LAST_LITERAL {
        return known::LITERAL;
    }
    if kind == node_kind::ARRAY {
        return known::ARRAY;
    }
    if kind == node_kind::OBJECT {
        return known::OBJECT;
    }
    known::NOTHING
}

// The node of a literal, or the first link.
fn head_start(nodes: &[u32], like: &[u32], node: u32, side: u32) -> u32
    requires { HeadAsks nodes.now node side }
    ensures { result ≡ head_start nodes.now like.now node side }
{
    let kind = head_kind(kind_of(nodes, node));
    if kind == known::NOTHING {
        return 0;
    }
    if kind == known::LITERAL {
        return of_node(like, node);
    }
    first_of(nodes, node) * 4 + side
}

// How many links.
fn head_count(nodes: &[u32], node: u32) -> u32
    ensures { result ≡ head_count nodes.now node }
{
    let kind = head_kind(kind_of(nodes, node));
    if kind <= known::LITERAL {
        return 0;
    }
    count_of(nodes, node)
}

// Word k of a place's head; of a place that is no marked node's nothing is known.
fn head_part(nodes: &[u32], marks: &[u8; 512], like: &[u32], node: u32, side: u32, k: usize) -> u32
    requires { HeadsAsks nodes.now marks.now × (node ≤ 512) }
    ensures { result ≡ head_part nodes.now marks.now like.now node side k }
{
    if node == 0 {
        return 0;
    }
    if 1 < side {
        return 0;
    }
    if marks[node as usize - 1] != 1 {
        return 0;
    }
    if k == 0 {
        return head_kind(kind_of(nodes, node));
    }
    if k == 1 {
        return head_start(nodes, like, node, side);
    }
    head_count(nodes, node)
}

pub(crate) fn head_words(
    nodes: &[u32],
    marks: &[u8; 512],
    like: &[u32],
    heads: &mut [u32; HEAD_WORDS],
)
    requires { HeadsAsks nodes.now marks.now }
    ensures { heads.new ≡ tabulate (head_word_at nodes.now marks.now like.now) 0 6156 }
{
    *heads = [0u32; HEAD_WORDS];
    for i in 0..HEAD_WORDS {
        heads[i] = head_part(
            nodes,
            marks,
            like,
            (i / 12) as u32,
            (i / 3 % 4) as u32,
            i % 3,
        );
    }
}
