// What a reference says: its literal's rank and number, and the bytes of a string.
ghost use Rattle.std.specs.Prelude.{◌≡◌, ◌+◌, leb};
ghost use Rattle.literal.specs.Reading.{literal_of, number_at, string_at, string_bytes};
ghost use Rattle.literal.specs.code.SortKey.{key_of, plain_key};

use super::{LiteralRef, is_number};

// The rank in the order of keys: 0 null, 1 false, 2 true, 3 a number, 4 a string; 5 for no literal.
// below and size are a number's, false and 0 for the rest.
#[derive(Clone, Copy)]
pub(crate) struct SortKey {
    pub rank: u8,
    pub below: bool,
    pub size: u64,
}

fn plain_key(rank: u8) -> SortKey
    ensures { result ≡ plain_key rank }
{
    SortKey {
        rank,
        below: false,
        size: 0,
    }
}

fn has_range(length: usize, start: usize, count: usize) -> bool
    ensures { result ≡ leb (start + count) length }
{
    if start <= length {
        return count <= length - start;
    }
    false
}

fn string_key(bytes: &[u8], start: usize, count: usize) -> SortKey
    ensures { result ≡ key_of (string_at bytes.now start count) }
{
    if has_range(bytes.len(), start, count) {
        return plain_key(4);
    }
    plain_key(5)
}

fn number_key(numbers: &[u64], place: usize) -> SortKey
    ensures { result ≡ key_of (number_at numbers.now place) }
{
    if numbers.len() / 2 <= place {
        return plain_key(5);
    }
    let below = numbers[place * 2];
    let size = numbers[place * 2 + 1];
    if is_number(below, size) {
        return SortKey {
            rank: 3,
            below: below == 1,
            size,
        };
    }
    plain_key(5)
}

pub(crate) fn key_of(numbers: &[u64], strings: &[u8], text: &[u8], l: LiteralRef) -> SortKey
    ensures { result ≡ key_of (literal_of numbers.now strings.now text.now l) }
{
    match l {
        LiteralRef::Null => plain_key(0),
        LiteralRef::False => plain_key(1),
        LiteralRef::True => plain_key(2),
        LiteralRef::Number { place } => number_key(numbers, place),
        LiteralRef::String { start, count } => string_key(strings, start, count),
        LiteralRef::RawString { start, count } => string_key(text, start, count),
    }
}

// Empty for a range that does not lie in the bytes.
pub(crate) fn part(bytes: &[u8], start: usize, count: usize) -> &[u8]
    ensures { result.now ≡ string_bytes (string_at bytes.now start count) }
{
    if has_range(bytes.len(), start, count) {
        return &bytes[start..start + count];
    }
    &bytes[0..0]
}
