// The text of a key.
ghost use Rattle.std.specs.Prelude.{◌≡◌, ◌+◌, ◌≤◌, eqb, length};
ghost use Rattle.literal.specs.Text.{decimal, signed, text_compared, texts_compared};
ghost use Rattle.literal.specs.Reading.{literal_of, bytes_of, TextDone};
ghost use Rattle.literal.specs.code.Written.{write_digits, Written};
ghost use Rattle.literal.specs.code.SortKey.{same_form};

use super::key::{SortKey, key_of, part};
use super::order::{compare_bytes, compare_sizes, compare_to_string};
use super::{Comparison, KeyText, LiteralRef};

// A part of whichever of the two holds the string; empty for every other reference.
pub fn string_bytes<'a>(strings: &'a [u8], text: &'a [u8], l: LiteralRef) -> &'a [u8]
    ensures { result.now ≡ bytes_of strings.now text.now l }
{
    match l {
        LiteralRef::String { start, count } => part(strings, start, count),
        LiteralRef::RawString { start, count } => part(text, start, count),
        _ => &strings[0..0],
    }
}

fn digit_count(size: u64) -> usize
    ensures { result ≡ length (decimal size) }
{
    size.checked_ilog10().unwrap_or(0) as usize + 1
}

// The lowest digits of a number, count of them, from start on.
fn write_digits(out: &mut [u8], start: usize, count: usize, size: u64)
    requires { start + count ≤ length out.old }
    ensures { out.new ≡ write_digits out.old start count size }
{
    let mut rest = size;
    for left in (0..count).rev() {
        out[start + left] = 48 + (rest % 10) as u8;
        rest = rest / 10;
    }
}

fn write_number(out: &mut [u8], below: bool, size: u64) -> KeyText
    requires { length (signed below (decimal size)) ≤ length out.old }
    ensures { Written (signed below (decimal size)) out.old out.new result }
{
    let count = digit_count(size);
    if below {
        out[0] = 45;
        write_digits(out, 1, count, size);
        return KeyText::Written { length: count + 1 };
    }
    write_digits(out, 0, count, size);
    KeyText::Written { length: count }
}

fn write_word(out: &mut [u8], word: &[u8]) -> KeyText
    requires { length word.now ≤ length out.old }
    ensures { Written word.now out.old out.new result }
{
    out[..word.len()].copy_from_slice(word);
    KeyText::Written { length: word.len() }
}

// The longest have 20 bytes: -9223372036854775808, and sizes of 20 digits above zero.
pub fn key_text(
    numbers: &[u64],
    strings: &[u8],
    text: &[u8],
    l: LiteralRef,
    out: &mut [u8; 20],
) -> KeyText
    ensures { TextDone (literal_of numbers.now strings.now text.now l) out.old out.new result }
{
    let x = key_of(numbers, strings, text, l);
    if x.rank == 0 {
        return write_word(out, b"null");
    }
    if x.rank == 1 {
        return write_word(out, b"false");
    }
    if x.rank == 2 {
        return write_word(out, b"true");
    }
    if x.rank == 3 {
        return write_number(out, x.below, x.size);
    }
    if x.rank == 4 {
        return KeyText::Lent;
    }
    KeyText::NoText
}

// The bytes with the text of a key.
fn compare_to_text<'a>(
    bytes: &[u8],
    numbers: &[u64],
    strings: &'a [u8],
    text: &'a [u8],
    l: LiteralRef,
) -> Comparison
    ensures { result ≡ text_compared bytes.now (literal_of numbers.now strings.now text.now l) }
{
    let mut out = [0u8; 20];
    match key_text(numbers, strings, text, l, &mut out) {
        KeyText::Lent => compare_to_string(bytes, strings, text, l),
        KeyText::Written { length } => compare_bytes(bytes, &out[..length]),
        KeyText::NoText => Comparison::NoLiteral,
    }
}

fn compare_string_text<'a>(
    numbers: &[u64],
    strings: &'a [u8],
    text: &'a [u8],
    a: LiteralRef,
    b: LiteralRef,
) -> Comparison
    ensures { result ≡ text_compared (bytes_of strings.now text.now a) (literal_of numbers.now strings.now text.now b) }
{
    compare_to_text(string_bytes(strings, text, a), numbers, strings, text, b)
}

fn same_digits(a: u64, b: u64) -> bool
    ensures { result ≡ eqb (length (decimal a)) (length (decimal b)) }
{
    digit_count(a) == digit_count(b)
}

// The same rank and sign, and sizes with equally many digits.
fn same_form(x: SortKey, y: SortKey) -> bool
    ensures { result ≡ same_form x y }
{
    if x.rank != y.rank {
        return false;
    }
    if x.below != y.below {
        return false;
    }
    same_digits(x.size, y.size)
}

pub fn compare_key_texts<'a>(
    numbers: &[u64],
    strings: &'a [u8],
    text: &'a [u8],
    a: LiteralRef,
    b: LiteralRef,
) -> Comparison
    ensures { result ≡ texts_compared (literal_of numbers.now strings.now text.now a) (literal_of numbers.now strings.now text.now b) }
{
    let x = key_of(numbers, strings, text, a);
    if x.rank == 3 {
        let y = key_of(numbers, strings, text, b);
        // Their texts are in the order of their sizes, below zero too.
        if same_form(x, y) {
            return compare_sizes(x.size, y.size);
        }
    }
    let mut out = [0u8; 20];
    match key_text(numbers, strings, text, a, &mut out) {
        KeyText::Lent => compare_string_text(numbers, strings, text, a, b),
        KeyText::Written { length } => {
            compare_to_text(&out[..length], numbers, strings, text, b)
        }
        KeyText::NoText => Comparison::NoLiteral,
    }
}
