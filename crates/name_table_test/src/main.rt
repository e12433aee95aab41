// Adds names and prints, for each case, the refusal or 0, the name's number, 1 where it was added, and the name table afterwards; then adds names until there is no place.
#![tactic(auto)]

use name_table::{NameAnswer, NameRefusal, add_name};
use std::{array, io};
use table::refusal_number;

// x, y, `_`, then an array of the first two.
const NODES: [u32; 20] = [6, 0, 1, 1, 0, 6, 1, 2, 2, 0, 6, 2, 3, 3, 0, 7, 0, 3, 0, 2];

const CHILDREN: [u32; 2] = [1, 2];

const NUMBERS: [u64; 0] = [];

// x, y and `_`, then two places that are free, or hold two names more.
const NAMES: [u32; 10] = [0, 1, 1, 1, 2, 1, 3, 2, 4, 1];

const STRINGS: [u8; 0] = [];

const TEXT: [u8; 7] = *b"xy_abxy";

// Words of the name table, names in use, start, length.
const CASES: [[u32; 4]; 27] = [
    [10, 3, 5, 1], // x, at another place
    [10, 3, 2, 1], // `_`
    [10, 3, 3, 1], // a: the first free place
    [10, 3, 5, 2], // xy, which is neither x nor y
    [10, 3, 0, 7], // the whole text
    [10, 4, 3, 2], // ab, which is in use
    [10, 4, 4, 1], // b: the last place
    [10, 5, 4, 1], // b, in use
    [10, 5, 3, 1], // a: no place
    [10, 5, 0, 1], // x needs none
    [9, 4, 3, 1], // an odd number of words
    [7, 3, 3, 1],
    [7, 3, 0, 1], // though x needs no place
    [9, 3, 3, 1], // or a has one
    [1, 129, 0, 1], // over a limit, which comes first
    [8, 3, 3, 1], // one place
    [6, 3, 3, 1], // none
    [10, 3, 0, 0], // no byte
    [10, 3, 7, 1], // past the text
    [10, 3, 6, 2],
    [10, 3, 4294967295, 4294967295],
    [6, 3, 7, 1], // past the text, and no place
    [10, 6, 0, 1], // more names in use than places
    [10, 128, 0, 1],
    [10, 129, 0, 1], // over a limit
    [10, 4294967295, 9, 9],
    [10, 2, 0, 1], // node 3 is a name that is not in use
];

fn print_answer(rt: &impl Print, number: u32, name: u32, added: u32) -> io::Result<()> {
    print!(rt; " {number} {name} {added}")
}

fn print_outcome(rt: &impl Print, answer: Result<NameAnswer, NameRefusal>) -> io::Result<()> {
    match answer {
        Ok(NameAnswer::Existing { name }) => print_answer(rt, 0, name, 0),
        Ok(NameAnswer::Added { name }) => print_answer(rt, 0, name, 1),
        Err(NameRefusal::TableRefused(refused)) => print_answer(rt, refusal_number(refused), 0, 0),
        Err(NameRefusal::NoPlace) => print_answer(rt, 33, 0, 0),
    }
}

fn print_names(rt: &impl Print, names: &[u32]) -> io::Result<()> {
    for word in names {
        print!(rt; " {word}")?;
    }
    println!(rt)
}

fn run(rt: &impl Print, case: [u32; 4]) -> io::Result<()> {
    let [words, used, start, length] = case;
    let mut names = NAMES;
    let lent = names.len().min(words as usize);
    let answer = add_name(
        &NODES,
        &CHILDREN,
        &NUMBERS,
        &mut names[..lent],
        &STRINGS,
        &TEXT,
        used,
        start,
        length,
    );
    print_outcome(rt, answer)?;
    print_names(rt, &names)
}

// Adds byte i, and prints the answer for the last few.
fn add_byte(
    rt: &impl Print,
    names: &mut [u32; 264],
    text: &[u8; 256],
    used: u32,
    i: u32,
) -> io::Result<u32> {
    let answer = add_name(&[], &[], &[], names, &[], text, used, i, 1);
    if 125 < i {
        print_outcome(rt, answer)?;
    }
    if let Ok(NameAnswer::Added { name }) = answer {
        return Ok(name);
    }
    Ok(used)
}

// 130 additions to a table of 132 places: the last two are refused, as 129th names; then one that stands there.
fn fill(rt: &impl Print) -> io::Result<()> {
    // Each byte is a name of its own.
    let text = array::from_fn(|i| (i % 256) as u8);
    let mut names = [0u32; 264];
    let mut used: u32 = 0;
    for i in 0..130 {
        used = add_byte(rt, &mut names, &text, used, i)?;
    }
    add_byte(rt, &mut names, &text, used, 127)?;
    println!(rt; " {} {}", names[254], names[256])
}

fn main(rt: HostRuntime) -> io::Result<()> {
    for case in CASES {
        run(&rt, case)?;
    }
    fill(&rt)
}
