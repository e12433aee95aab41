// The table rules that speak of one node.
ghost use Rattle.table.specs.Contents.{contents};
ghost use Rattle.std.specs.Prelude.{◌≡◌, ◌&&◌, [], ◌+◌, ◌/◌, ◌<◌, eqb, leb, ltb, length};
ghost use Rattle.table.specs.Tables.{tables, first_word_of, count_of};
ghost use Rattle.table.specs.Rules.{span_ok, name_text_ok, words_ok, children_below};
ghost use Rattle.table.specs.code.Passes.{words_ok_at};

use crate::node_kind;
use crate::reading::{bytes_between, child_at, name_bytes, node_word, same_bytes, width_at};
use crate::tables::Tables;

// Does a range end no later than what it points into?
pub fn in_range(start: usize, count: usize, length: usize) -> bool
    ensures { result ≡ leb (start + count) length }
{
    if length < start {
        return false;
    }
    count <= length - start
}

// Of node i + 1, as are the others.
pub fn span_ok(nodes: &[u32], text: &[u8], i: usize) -> bool
    requires { i < length nodes.now / 5 }
    ensures { result ≡ span_ok (tables nodes.now [] [] [] [] text.now) (i + 1) }
{
    let start = node_word(nodes, i, 1);
    let end = node_word(nodes, i, 2);
    if end < start {
        return false;
    }
    end as usize <= text.len()
}

// One word below a limit, and the other unused.
fn one_word(first: usize, limit: usize, count: usize) -> bool
    ensures { result ≡ (ltb first limit && eqb count 0) }
{
    if first < limit {
        return count == 0;
    }
    false
}

// Is a name node's own text its name's bytes?
pub fn name_text_ok(nodes: &[u32], names: &[u32], text: &[u8], i: usize) -> bool
    requires { i < length nodes.now / 5 }
    ensures { result ≡ name_text_ok (tables nodes.now [] [] names.now [] text.now) (i + 1) }
{
    let start = node_word(nodes, i, 1) as usize;
    let own = bytes_between(text, start, node_word(nodes, i, 2) as usize);
    let bytes = name_bytes(names, text, node_word(nodes, i, 3));
    same_bytes(own, bytes)
}

fn name_words_ok(nodes: &[u32], names: &[u32], text: &[u8], i: usize) -> bool
    requires { i < length nodes.now / 5 }
    ensures { result ≡ words_ok (tables nodes.now [] [] names.now [] text.now) (i + 1) 6 (first_word_of nodes.now (i + 1)) (count_of nodes.now (i + 1)) }
{
    let name = node_word(nodes, i, 3);
    if name < 1 {
        return false;
    }
    if names.len() / 2 < name as usize {
        return false;
    }
    if node_word(nodes, i, 4) != 0 {
        return false;
    }
    name_text_ok(nodes, names, text, i)
}

// What first and count are, by the kind.
pub(crate) fn words_ok(tables: &Tables<'_>, i: usize) -> bool
    requires { i < length tables.now.nodes.now / 5 }
    ensures { result ≡ words_ok_at (contents tables.now) i }
{
    let kind = node_word(tables.nodes, i, 0);
    let first = node_word(tables.nodes, i, 3) as usize;
    let count = node_word(tables.nodes, i, 4) as usize;
    match kind {
        node_kind::STRING => in_range(first, count, tables.strings.len()),
        node_kind::RAW_STRING => in_range(first, count, tables.text.len()),
        node_kind::NUMBER => one_word(first, tables.numbers.len() / 2, count),
        node_kind::BOOL => one_word(first, 2, count),
        node_kind::NULL => one_word(first, 1, count),
        node_kind::NAME => name_words_ok(tables.nodes, tables.names, tables.text, i),
        node_kind::ARRAY => in_range(first, count, tables.children.len()),
        node_kind::SET => in_range(first, count, tables.children.len()),
        node_kind::OBJECT => in_range(first, count * 2, tables.children.len()),
        node_kind::OTHER => one_word(first, 1, count),
        _ => false,
    }
}

pub fn children_below(nodes: &[u32], children: &[u32], n: usize) -> bool
    requires { n < length nodes.now / 5 }
    ensures { result ≡ children_below (tables nodes.now children.now [] [] [] []) (n + 1) }
{
    let first = node_word(nodes, n, 3) as usize;
    let count = width_at(nodes, n);
    let node = n + 1;
    for i in 0..count {
        let child = child_at(children, first + i) as usize;
        if node <= child {
            return false;
        }
    }
    true
}
