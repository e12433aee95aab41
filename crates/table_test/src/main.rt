// Runs the table check on a sound table, on copies that break one rule each, at the limits and past them.
#![tactic(auto)]

ghost use Rattle.std.specs.Prelude.{◌≤◌, IfOk};

use scope::Scope;
use std::{array, io};
use table::tables::Tables;
use table::{TableRefusal, refusal_number};

const NODES: [[u32; 5]; 16] = [
    [1, 0, 1, 0, 2], // "ab"
    [2, 99, 101, 99, 2], // cd, raw
    [3, 0, 1, 0, 0], // -7
    [4, 0, 1, 1, 0], // true
    [5, 0, 0, 0, 0], // null
    [6, 120, 121, 1, 0], // x
    [6, 95, 96, 2, 0], // _
    [6, 121, 122, 3, 0], // y
    [10, 0, 400, 0, 0], // another expression, the whole text
    [7, 0, 0, 0, 2], // an array of 1 and 6
    [8, 0, 0, 2, 2], // a set of 2 and 7
    [9, 0, 0, 5, 2], // an object of 3, 8, 4 and 10
    [7, 0, 0, 4, 1], // an array of 12
    [7, 0, 0, 10, 0], // an empty array at the very end
    [1, 0, 0, 2, 0], // an empty string at the very end
    [2, 400, 400, 400, 0], // an empty raw string at the very end
];

// The last entry is unused.
const CHILDREN: [u32; 10] = [1, 6, 2, 7, 12, 3, 8, 4, 10, 5];

// -7, and 0, which no node refers to
const NUMBERS: [u64; 4] = [1, 7, 0, 0];

// x, _, y, c: byte i of the text is i.
const NAMES: [u32; 8] = [120, 1, 95, 1, 121, 1, 99, 1];

// What a case changes: a word, number or byte of a list, by its place; the length of a list; the number of `_`.
#[derive(Clone, Copy)]
enum Change {
    Node(usize, u32),
    Child(usize, u32),
    Number(usize, u64),
    Name(usize, u32),
    Byte(usize, u8),
    NodeWords(usize),
    NumberWords(usize),
    NameWords(usize),
    Underscore(u32),
}

// Each change with the answer's number.
const CASES: [(Change, u32); 60] = [
    (Change::Underscore(2), 0), // the table as it stands
    (Change::Node(40, 0), 2), // kind 0
    (Change::Node(40, 11), 2), // kind 11
    (Change::Node(14, 1), 2), // a number's count
    (Change::Node(19, 1), 2), // a bool's count
    (Change::Node(23, 1), 2), // null's first
    (Change::Node(24, 1), 2), // null's count
    (Change::Node(29, 1), 2), // a name's count
    (Change::Node(43, 1), 2), // another expression's first
    (Change::Node(44, 1), 2), // another expression's count
    (Change::Node(1, 2), 2), // a start above its end
    (Change::Node(42, 401), 2), // an end past the text
    (Change::Node(4, 3), 2), // a string past the store
    (Change::Node(3, 4294967295), 2), // a string far past the store
    (Change::Node(73, 3), 2), // an empty string past the store
    (Change::Node(9, 302), 2), // a raw string past the text
    (Change::Node(78, 401), 2), // an empty raw string past the text
    (Change::Node(13, 1), 0), // the last number
    (Change::Node(13, 2), 2), // a number's place past the numbers
    (Change::Node(18, 0), 0), // false
    (Change::Node(18, 2), 2), // a bool of 2
    (Change::Node(28, 0), 2), // name 0
    (Change::Node(28, 5), 2), // a name past the names
    (Change::Node(28, 3), 2), // another name's text
    (Change::Node(27, 122), 2), // a text longer than its name
    (Change::Node(63, 9), 0), // an array at the last child entry
    (Change::Node(63, 10), 2), // an array past the child list
    (Change::Node(68, 11), 2), // an empty array past the child list
    (Change::Node(68, 4294967295), 2), // an array far past the child list
    (Change::Node(53, 9), 2), // a set past the child list
    (Change::Node(59, 3), 2), // an object past the child list
    (Change::Child(4, 13), 2), // a child equal to its parent
    (Change::Child(4, 14), 2), // a child above its parent
    (Change::Child(9, 1), 2), // a node twice in the child list
    (Change::Node(63, 0), 2), // a child entry for two nodes
    (Change::Child(9, 16), 0), // an unused child entry of the last node
    (Change::Child(9, 0), 2), // an unused child entry of 0
    (Change::Child(9, 17), 2), // an unused child entry past the nodes
    (Change::NodeWords(75), 0), // a node fewer
    (Change::NodeWords(79), 2), // nodes that are not fives
    (Change::NumberWords(2), 0), // a number fewer
    (Change::NumberWords(3), 2), // numbers that are not pairs
    (Change::NameWords(6), 0), // a name fewer
    (Change::NameWords(7), 2), // names that are not pairs
    (Change::Name(7, 0), 2), // a name of no bytes
    (Change::Name(7, 255), 0), // a name of 255 bytes
    (Change::Name(7, 256), 2), // a name of 256 bytes
    (Change::Name(6, 399), 0), // a name at the very end
    (Change::Name(6, 400), 2), // a name past the text
    (Change::Number(2, 1), 2), // minus zero
    (Change::Number(2, 2), 2), // a sign of 2
    (Change::Number(1, 9223372036854775808), 0), // the least number
    (Change::Number(1, 9223372036854775809), 2), // one below it
    (Change::Number(3, 18446744073709551615), 0), // the greatest number
    (Change::Number(3, 9223372036854775808), 0), // 2^63, above the signed range
    (Change::Underscore(0), 0), // a scope with no `_`
    (Change::Underscore(1), 2), // the number of x for `_`
    (Change::Underscore(5), 2), // a number past the names for `_`
    (Change::Byte(99, 120), 4), // a second name x
    (Change::Byte(99, 95), 4), // a second name `_`
];

// The lengths of the six lists, and the answer's number: each list one past its limit, and none.
const LIMITS: [([usize; 6], u32); 7] = [
    ([2565, 512, 512, 256, 8192, 16384], 1),
    ([2560, 513, 512, 256, 8192, 16384], 1),
    ([2560, 512, 514, 256, 8192, 16384], 1),
    ([2560, 512, 512, 258, 8192, 16384], 1),
    ([2560, 512, 512, 256, 8193, 16384], 1),
    ([2560, 512, 512, 256, 8192, 16385], 1),
    ([2560, 512, 512, 256, 8192, 16384], 0),
];

// A chain's depth, its names, the number of `_`, and the answer's number: what is told before and after the depth.
const CHAINS: [(usize, usize, u32, u32); 5] = [
    (32, 0, 0, 0),
    (33, 0, 0, 3),
    (33, 0, 1, 2),
    (33, 2, 0, 3),
    (32, 2, 0, 4),
];

fn number_of(answer: Result<(), TableRefusal>) -> u32 {
    match answer {
        Ok(()) => 0,
        Err(refused) => refusal_number(refused),
    }
}

fn put<T: Copy>(list: &mut [T], index: usize, value: T) {
    if let Some(place) = list.get_mut(index) {
        *place = value;
    }
}

// The first of a list, or all where there are fewer.
fn first<T>(list: &[T], count: usize) -> &[T] {
    list.get(..count).unwrap_or(list)
}

// Byte i is i.
fn text<const N: usize>() -> [u8; N] {
    array::from_fn(|i| (i % 256) as u8)
}

// The table with one change.
fn run_changed(change: Change) -> u32 {
    let mut nodes = NODES;
    let mut children = CHILDREN;
    let mut numbers = NUMBERS;
    let mut names = NAMES;
    let mut text = text::<400>();
    let mut underscore = 2;
    let mut lengths = (80, 4, 8);
    match change {
        Change::Node(i, word) => put(nodes.as_flattened_mut(), i, word),
        Change::Child(i, word) => put(&mut children, i, word),
        Change::Number(i, number) => put(&mut numbers, i, number),
        Change::Name(i, word) => put(&mut names, i, word),
        Change::Byte(i, byte) => put(&mut text, i, byte),
        Change::NodeWords(count) => lengths.0 = count,
        Change::NumberWords(count) => lengths.1 = count,
        Change::NameWords(count) => lengths.2 = count,
        Change::Underscore(name) => underscore = name,
    }
    let tables = Tables {
        nodes: first(nodes.as_flattened(), lengths.0),
        children: &children,
        numbers: first(&numbers, lengths.1),
        names: first(&names, lengths.2),
        strings: b"ab",
        text: &text,
    };
    number_of(table::check(&tables, Scope::new(underscore, false)))
}

// Lists of these lengths: childless nodes, each node a child in turn, each name a byte of the text.
fn run_full(lengths: [usize; 6]) -> u32 {
    let nodes = [[10u32, 0, 0, 0, 0]; 513];
    let children: [u32; 513] = array::from_fn(|i| (i % 4096) as u32 + 1);
    let numbers = [0u64; 514];
    let names: [[u32; 2]; 129] = array::from_fn(|i| [(i % 4096) as u32, 1]);
    let strings = [0u8; 8193];
    let text = text::<16385>();
    let [
        node_words,
        child_words,
        number_words,
        name_words,
        string_bytes,
        text_bytes,
    ] = lengths;
    let tables = Tables {
        nodes: first(nodes.as_flattened(), node_words),
        children: first(&children, child_words),
        numbers: first(&numbers, number_words),
        names: first(names.as_flattened(), name_words),
        strings: first(&strings, string_bytes),
        text: first(&text, text_bytes),
    };
    number_of(table::check(&tables, Scope::new(0, false)))
}

// The first node is childless, and every other an array of the one before it.
fn chain_node(i: usize) -> [u32; 5] {
    if i == 0 {
        return [10, 0, 0, 0, 0];
    }
    [7, 0, 0, (i % 4096) as u32, 1]
}

// A chain, with names of equal bytes. Child entry 0 is the highest node, and unused; entry i is node i.
fn run_chain(depth: usize, name_count: usize, underscore: u32) -> u32 {
    let nodes: [[u32; 5]; 33] = array::from_fn(chain_node);
    let mut children: [u32; 33] = array::from_fn(|i| (i % 4096) as u32);
    children[0] = (depth % 4096) as u32;
    let names = [[0u32, 1]; 2];
    let tables = Tables {
        nodes: first(&nodes, depth).as_flattened(),
        children: first(&children, depth),
        numbers: &NUMBERS,
        names: first(&names, name_count).as_flattened(),
        strings: b"",
        text: b"x",
    };
    number_of(table::check(&tables, Scope::new(underscore, false)))
}

// How many agree, here 0 or 1; a case that does not is named by its place in its list.
fn told(rt: &impl Print, list: &str, case: usize, got: u32, want: u32) -> io::Result<usize>
    ensures { IfOk result (λ n. n ≤ 1) }
{
    if got == want {
        return Ok(1);
    }
    println!(rt; "{list} {case} answers {got}")?;
    Ok(0)
}

fn run_cases(rt: &impl Print) -> io::Result<usize>
    ensures { IfOk result (λ n. n ≤ 60) }
{
    let mut agree = 0;
    for (i, (change, want)) in CASES.iter().enumerate() {
        agree += told(rt, "case", i, run_changed(*change), *want)?;
    }
    Ok(agree)
}

fn run_limits(rt: &impl Print) -> io::Result<usize>
    ensures { IfOk result (λ n. n ≤ 7) }
{
    let mut agree = 0;
    for (i, (lengths, want)) in LIMITS.iter().enumerate() {
        agree += told(rt, "limit", i, run_full(*lengths), *want)?;
    }
    Ok(agree)
}

fn run_chains(rt: &impl Print) -> io::Result<usize>
    ensures { IfOk result (λ n. n ≤ 5) }
{
    let mut agree = 0;
    for (i, (depth, names, underscore, want)) in CHAINS.iter().enumerate() {
        agree += told(
            rt,
            "chain",
            i,
            run_chain(*depth, *names, *underscore),
            *want,
        )?;
    }
    Ok(agree)
}

fn main(rt: HostRuntime) -> io::Result<()> {
    let agree = run_cases(&rt)? + run_limits(&rt)? + run_chains(&rt)?;
    println!(rt; "{agree} of 72 agree")
}
