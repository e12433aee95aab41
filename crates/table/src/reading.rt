// The words of the tables, 0 where there is none.
ghost use Rattle.table.specs.Lent.{lent_literal, lent_referred};
ghost use Rattle.std.specs.Prelude.{◌≡◌, [], ◌+◌, ◌-◌, ◌/◌, ◌<◌, ◌≤◌, ◌^◌, length};
ghost use Rattle.table.specs.Tables.{tables, is_node, record_word, kind_of, first_word_of, count_of, width_of, width, child_at, name_start, name_length, name_bytes};
ghost use Rattle.base.specs.Lists.{part};
ghost use Rattle.table.specs.Decode.{ref_of};
ghost use Rattle.table.specs.Names.{same_bytes, class_of};
ghost use Rattle.literal.specs.Order.{compared};
ghost use Rattle.literal.specs.Text.{texts_compared};

use crate::{Key, NameClass, node_kind};
use literal::order::{compare, compare_bytes};
use literal::{Comparison, LiteralRef, text};

// Word k of record n, of `size` words each.
fn record_word(words: &[u32], size: usize, k: usize, n: u32) -> u32
    requires { (size ≤ 5) × (k < 5) }
    ensures { result ≡ record_word size k words.now n }
{
    if n == 0 {
        return 0;
    }
    let at = (n as usize - 1) * size + k;
    if at < words.len() {
        return words[at];
    }
    0
}

// Word k of node i + 1, which is there.
pub(crate) fn node_word(nodes: &[u32], i: usize, k: usize) -> u32
    requires { (i < length nodes.now / 5) × (k < 5) }
    ensures { result ≡ record_word 5 k nodes.now (i + 1) }
{
    nodes[i * 5 + k]
}

pub fn kind_of(nodes: &[u32], node: u32) -> u32
    ensures { result ≡ kind_of nodes.now node }
{
    record_word(nodes, 5, 0, node)
}

pub fn first_of(nodes: &[u32], node: u32) -> u32
    ensures { result ≡ first_word_of nodes.now node }
{
    record_word(nodes, 5, 3, node)
}

pub fn count_of(nodes: &[u32], node: u32) -> u32
    ensures { result ≡ count_of nodes.now node }
{
    record_word(nodes, 5, 4, node)
}

pub fn child_at(children: &[u32], place: usize) -> u32
    ensures { result ≡ child_at children.now place }
{
    if place < children.len() {
        return children[place];
    }
    0
}

fn width_by(kind: u32, words: u32) -> usize
    ensures { (result ≡ width_of kind words) × (result < 2 ^ 33) }
{
    let count = words as usize;
    if kind == node_kind::OBJECT {
        return count * 2;
    }
    if kind == node_kind::ARRAY {
        return count;
    }
    if kind == node_kind::SET {
        return count;
    }
    0
}

// The child entries of node i + 1, which is there.
pub(crate) fn width_at(nodes: &[u32], i: usize) -> usize
    requires { i < length nodes.now / 5 }
    ensures { (result ≡ width nodes.now (i + 1)) × (result < 2 ^ 33) }
{
    width_by(node_word(nodes, i, 0), node_word(nodes, i, 4))
}

pub fn width_of(nodes: &[u32], node: u32) -> usize
    ensures { (result ≡ width nodes.now node) × (result < 2 ^ 33) }
{
    width_by(kind_of(nodes, node), count_of(nodes, node))
}

pub(crate) fn name_start(names: &[u32], name: u32) -> u32
    ensures { result ≡ name_start names.now name }
{
    record_word(names, 2, 0, name)
}

pub(crate) fn name_length(names: &[u32], name: u32) -> u32
    ensures { result ≡ name_length names.now name }
{
    record_word(names, 2, 1, name)
}

// The bytes of a range, as far as they are there.
fn bytes_at(bytes: &[u8], start: usize, count: usize) -> &[u8]
    ensures { result.now ≡ part bytes.now start count }
{
    if bytes.len() < start {
        return &bytes[0..0];
    }
    if bytes.len() - start < count {
        return &bytes[start..];
    }
    &bytes[start..start + count]
}

// A name's bytes, lent back from the text.
pub fn name_bytes<'a>(names: &[u32], text: &'a [u8], name: u32) -> &'a [u8]
    ensures { result.now ≡ name_bytes names.now text.now name }
{
    let start = name_start(names, name) as usize;
    let length = name_length(names, name) as usize;
    bytes_at(text, start, length)
}

// The bytes from start to end; none where it ends first.
pub(crate) fn bytes_between(bytes: &[u8], start: usize, end: usize) -> &[u8]
    ensures { result.now ≡ part bytes.now start (end - start) }
{
    if end < start {
        return bytes_at(bytes, start, 0);
    }
    bytes_at(bytes, start, end - start)
}

// The literal that a node refers to, or that it is none.
pub fn extract_literal_key(nodes: &[u32], node: u32) -> Key
    ensures { result ≡ ref_of nodes.now node }
{
    let kind = kind_of(nodes, node);
    let first = first_of(nodes, node) as usize;
    let count = count_of(nodes, node) as usize;
    match kind {
        node_kind::STRING => Key::Literal(LiteralRef::String {
            start: first,
            count,
        }),
        node_kind::RAW_STRING => Key::Literal(LiteralRef::RawString {
            start: first,
            count,
        }),
        node_kind::NUMBER => Key::Literal(LiteralRef::Number { place: first }),
        node_kind::BOOL => {
            if first == 0 {
                return Key::Literal(LiteralRef::False);
            }
            Key::Literal(LiteralRef::True)
        }
        node_kind::NULL => Key::Literal(LiteralRef::Null),
        _ => Key::Computed,
    }
}

// Is it a node's number?
pub fn is_node(nodes: &[u32], node: u32) -> bool
    ensures { result ≡ is_node (tables nodes.now [] [] [] [] []) node }
{
    if node < 1 {
        return false;
    }
    node as usize <= nodes.len() / 5
}

pub fn same_bytes(a: &[u8], b: &[u8]) -> bool
    ensures { result ≡ same_bytes a.now b.now }
{
    if a.len() != b.len() {
        return false;
    }
    match compare_bytes(a, b) {
        Comparison::Equal => true,
        Comparison::Less => false,
        Comparison::Greater => false,
        Comparison::NoLiteral => false,
    }
}

pub fn name_class(names: &[u32], text: &[u8], name: u32) -> NameClass
    ensures { result ≡ class_of (name_bytes names.now text.now name) }
{
    let bytes = name_bytes(names, text, name);
    if same_bytes(bytes, b"_") {
        return NameClass::Underscore;
    }
    if same_bytes(bytes, b"input") {
        return NameClass::InputOrData;
    }
    if same_bytes(bytes, b"data") {
        return NameClass::InputOrData;
    }
    NameClass::Ordinary
}

// A literal with that of a node, in the order of keys.
pub fn compare_literal_to_node<'a>(
    nodes: &[u32],
    numbers: &[u64],
    strings: &'a [u8],
    text: &'a [u8],
    a: LiteralRef,
    b: u32,
) -> Comparison
    ensures { result ≡ compared (lent_referred numbers strings text a) (lent_literal nodes numbers strings text b) }
{
    let Key::Literal(literal) = extract_literal_key(nodes, b) else {
        return Comparison::NoLiteral;
    };
    compare(numbers, strings, text, a, literal)
}

// The literals of two nodes, in the order of keys.
pub fn compare_literals<'a>(
    nodes: &[u32],
    numbers: &[u64],
    strings: &'a [u8],
    text: &'a [u8],
    a: u32,
    b: u32,
) -> Comparison
    ensures { result ≡ compared (lent_literal nodes numbers strings text a) (lent_literal nodes numbers strings text b) }
{
    let Key::Literal(literal) = extract_literal_key(nodes, a) else {
        return Comparison::NoLiteral;
    };
    compare_literal_to_node(nodes, numbers, strings, text, literal, b)
}

// The text of a key with that of a node, by their bytes.
pub fn compare_key_text_to_node<'a>(
    nodes: &[u32],
    numbers: &[u64],
    strings: &'a [u8],
    text: &'a [u8],
    a: LiteralRef,
    b: u32,
) -> Comparison
    ensures { result ≡ texts_compared (lent_referred numbers strings text a) (lent_literal nodes numbers strings text b) }
{
    let Key::Literal(literal) = extract_literal_key(nodes, b) else {
        return Comparison::NoLiteral;
    };
    text::compare_key_texts(numbers, strings, text, a, literal)
}

// The key texts of two nodes, by their bytes.
pub fn compare_key_texts<'a>(
    nodes: &[u32],
    numbers: &[u64],
    strings: &'a [u8],
    text: &'a [u8],
    a: u32,
    b: u32,
) -> Comparison
    ensures { result ≡ texts_compared (lent_literal nodes numbers strings text a) (lent_literal nodes numbers strings text b) }
{
    let Key::Literal(literal) = extract_literal_key(nodes, a) else {
        return Comparison::NoLiteral;
    };
    compare_key_text_to_node(nodes, numbers, strings, text, literal, b)
}
