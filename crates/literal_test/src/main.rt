// Runs a table of literals: how each two compare as keys and as key texts, then the text of each.
#![tactic(auto)]

use literal::{Comparison, KeyText, LiteralRef};
use std::io;

// Two words a number: the least, -1, 0, 10, 2^63, the greatest; then minus zero and one below the
// least, which are none.
const NUMBERS: [u64; 16] = [
    1,
    9223372036854775808,
    1,
    1,
    0,
    0,
    0,
    10,
    0,
    9223372036854775808,
    0,
    18446744073709551615,
    1,
    0,
    1,
    9223372036854775809,
];

const STRINGS: [u8; 6] = *b"abcab\xff";

const TEXT: [u8; 9] = *b"[abc, 10]";

// A literal, and its places in the orders of keys and of key texts; no places where there is no literal.
type Row = (LiteralRef, Option<(u8, u8)>);

const TABLE: [Row; 21] = [
    (LiteralRef::Null, Some((0, 10))),
    (LiteralRef::False, Some((1, 9))),
    (LiteralRef::True, Some((2, 11))),
    (LiteralRef::Number { place: 0 }, Some((3, 2))), // -9223372036854775808
    (LiteralRef::Number { place: 1 }, Some((4, 1))), // -1
    (LiteralRef::Number { place: 2 }, Some((5, 3))), // 0
    (LiteralRef::Number { place: 3 }, Some((6, 4))), // 10
    (LiteralRef::Number { place: 4 }, Some((7, 6))), // 9223372036854775808
    (LiteralRef::Number { place: 5 }, Some((8, 5))), // 18446744073709551615
    (LiteralRef::String { start: 6, count: 0 }, Some((9, 0))), // an empty string at the very end
    (LiteralRef::RawString { start: 6, count: 2 }, Some((10, 4))), // 10, raw
    (LiteralRef::String { start: 0, count: 2 }, Some((11, 7))), // ab
    (LiteralRef::String { start: 3, count: 2 }, Some((11, 7))), // ab, elsewhere
    (LiteralRef::RawString { start: 1, count: 2 }, Some((11, 7))), // ab, raw
    (LiteralRef::String { start: 0, count: 3 }, Some((12, 8))), // abc
    (LiteralRef::Number { place: 6 }, None), // minus zero
    (LiteralRef::Number { place: 7 }, None), // one below the least
    (
        LiteralRef::Number {
            place: 9223372036854775808,
        },
        None,
    ), // a place far out
    (LiteralRef::String { start: 5, count: 2 }, None), // one byte too long
    (LiteralRef::String { start: 7, count: 0 }, None), // past the end
    (
        LiteralRef::RawString {
            start: 18446744073709551615,
            count: 2,
        },
        None,
    ), // an end that does not fit a word
];

// Is the answer the order of the two places?
fn agrees(answer: Comparison, places: Option<(u8, u8)>) -> bool {
    match places {
        Some((a, b)) => match answer {
            Comparison::Less => a < b,
            Comparison::Equal => a == b,
            Comparison::Greater => b < a,
            Comparison::NoLiteral => false,
        },
        None => matches!(answer, Comparison::NoLiteral),
    }
}

fn keys_agree(a: Row, b: Row) -> bool {
    let answer = literal::order::compare(&NUMBERS, &STRINGS, &TEXT, a.0, b.0);
    agrees(answer, a.1.zip(b.1).map(|(x, y)| (x.0, y.0)))
}

fn texts_agree(a: Row, b: Row) -> bool {
    let answer = literal::text::compare_key_texts(&NUMBERS, &STRINGS, &TEXT, a.0, b.0);
    agrees(answer, a.1.zip(b.1).map(|(x, y)| (x.1, y.1)))
}

fn print_counts(rt: &impl Print, keys: u64, texts: u64) -> io::Result<()> {
    print!(rt; "{keys} of 441 compare as keys, ")?;
    println!(rt; "{texts} as texts")
}

fn print_text(rt: &impl Print, l: LiteralRef) -> io::Result<()> {
    let strings = STRINGS;
    let text = TEXT;
    let mut out = [0u8; 20];
    match literal::text::key_text(&NUMBERS, &strings, &text, l, &mut out) {
        KeyText::Lent => {
            rt.write_all(literal::text::string_bytes(&strings, &text, l))?;
        }
        KeyText::Written { length } => {
            rt.write_all(&out[..length])?;
        }
        KeyText::NoText => {
            rt.write_all(b"no literal")?;
        }
    }
    rt.write_all(b"\n")
}

fn print_texts(rt: &impl Print) -> io::Result<()> {
    for row in &TABLE {
        print_text(rt, row.0)?;
    }
    Ok(())
}

fn main(rt: HostRuntime) -> io::Result<()> {
    let mut keys: u64 = 0;
    let mut texts: u64 = 0;
    for pair in 0..441 {
        let a = TABLE[pair / 21];
        let b = TABLE[pair % 21];
        keys += u64::from(keys_agree(a, b));
        texts += u64::from(texts_agree(a, b));
    }
    print_counts(&rt, keys, texts)?;
    print_texts(&rt)
}
