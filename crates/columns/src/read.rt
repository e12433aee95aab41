// The reading of columns.
ghost use Rattle.std.specs.Prelude.{◌≡◌, [], ◌∷◌, ◌≤◌, length};
ghost use Rattle.columns.specs.Columns.{after_blanks, read_column, six_column, column_bytes, column_at, signed_column_at, signed_number};
ghost use Rattle.columns.specs.code.Decimals.{are_blank};

use crate::SignedNumber;
use crate::decimal::{after_blanks, read_decimal};

// Empty for a column that is not all there.
fn column_bytes(bytes: &[u8], at: usize, width: usize) -> &[u8]
    ensures { result.now ≡ column_bytes bytes.now at width }
{
    if bytes.len() < width {
        return &bytes[0..0];
    }
    if bytes.len() - width < at {
        return &bytes[0..0];
    }
    &bytes[at..at + width]
}

fn are_blank(a: u8, b: u8, c: u8, d: u8) -> bool
    ensures { result ≡ are_blank a b c d }
{
    a as u32 + b as u32 * 256 + c as u32 * 65536 + d as u32 * 16777216 == 0x20202020
}

// A number of one or two digits.
fn read_two(tens: u8, units: u8) -> Option<u32>
    ensures { result ≡ read_column (tens ∷ units ∷ []) }
{
    let high = tens as u32;
    let low = units as u32;
    if low < 48 {
        return None;
    }
    if 57 < low {
        return None;
    }
    if high == 32 {
        return Some(low - 48);
    }
    if high < 49 {
        return None;
    }
    if 57 < high {
        return None;
    }
    Some((high - 48) * 10 + (low - 48))
}

fn read_six(bytes: &[u8]) -> Option<u32>
    requires { length bytes.now ≤ 6 }
    ensures { result ≡ read_column bytes.now }
{
    let n = read_decimal(after_blanks(bytes))?;
    Some(n as u32)
}

// The number that six bytes say; of more or fewer, none.
pub fn column_of(bytes: &[u8]) -> Option<u32>
    ensures { result ≡ six_column bytes.now }
{
    if bytes.len() != 6 {
        return None;
    }
    if are_blank(bytes[0], bytes[1], bytes[2], bytes[3]) {
        return read_two(bytes[4], bytes[5]);
    }
    read_six(bytes)
}

// The column of six bytes at a place.
pub fn read_column(bytes: &[u8], at: usize) -> Option<u32>
    ensures { result ≡ column_at bytes.now at }
{
    column_of(column_bytes(bytes, at, 6))
}

// The bytes after the blanks in front, as far as these are whole fours.
fn after_fours(bytes: &[u8]) -> &[u8]
    ensures { after_blanks result.now ≡ after_blanks bytes.now }
{
    let fours = bytes.len() / 4;
    for i in 0..fours {
        let at = i * 4;
        if !are_blank(bytes[at], bytes[at + 1], bytes[at + 2], bytes[at + 3]) {
            return &bytes[at..];
        }
    }
    &bytes[fours * 4..]
}

fn signed_number(below: u64, digits: &[u8]) -> Option<SignedNumber>
    ensures { result ≡ signed_number below digits.now }
{
    let size = read_decimal(digits)?;
    Some(SignedNumber { below, size })
}

// The column of twenty bytes at a place: a sign and a size of 64 bits, minus zero too.
pub fn read_signed_column(bytes: &[u8], at: usize) -> Option<SignedNumber>
    ensures { result ≡ signed_column_at bytes.now at }
{
    let number = after_blanks(after_fours(column_bytes(bytes, at, 20)));
    if number.len() == 0 {
        return None;
    }
    if number[0] == 45 {
        return signed_number(1, &number[1..]);
    }
    signed_number(0, number)
}
