// Lines of columns of six, and of one column of twenty, read into arrays.
ghost use Rattle.std.specs.Prelude.{◌≡◌, ◌+◌, ◌*◌, ◌<◌, ◌≤◌, length};
ghost use Rattle.sheet.specs.Lines.{column_place, is_line_feed, line_length, line_ok, lines_ok, number_line_ok, number_lines_ok, column_word_at, number_word};
ghost use Rattle.sheet.specs.code.Post.{WordRead, LineAsks, LinesAsks, NumberAsks, NumbersAsks, Read};

use columns::read::{column_of, read_signed_column};

pub(crate) const COLUMN: usize = 6;

const SIGNED_COLUMN: usize = 20;

pub(crate) const NUMBER_LINE: usize = SIGNED_COLUMN + 1;

// Whether the column has a number, which is then word w.
fn read_word(sheet: &[u8], at: usize, w: usize, out: &mut [u32]) -> bool
    requires { (column_place at 1 ≤ length sheet.now) × (w < length out.old) }
    ensures { WordRead sheet.now at w out.old out.new result }
{
    let Some(n) = column_of(&sheet[at..at + COLUMN]) else {
        return false;
    };
    out[w] = n;
    true
}

fn is_line_feed(sheet: &[u8], at: usize) -> bool
    ensures { result ≡ is_line_feed sheet.now at }
{
    if at < sheet.len() {
        return sheet[at] == 10;
    }
    false
}

// Line i: columns of six, then LF.
fn read_line(sheet: &[u8], at: usize, columns: usize, i: usize, out: &mut [u32]) -> bool
    requires { LineAsks sheet.now at columns i out.old }
    ensures { Read (column_word_at sheet.now at (line_length columns) columns) (i * columns + columns) (line_ok sheet.now at columns i) out.new result }
{
    let place = at + i * (columns * COLUMN + 1);
    let end = place + columns * COLUMN;
    if sheet.len() <= end {
        return false;
    }
    let first = i * columns;
    for j in 0..columns {
        if !read_word(sheet, place + j * COLUMN, first + j, out) {
            return false;
        }
    }
    sheet[end] == 10
}

pub(crate) fn read_lines(
    sheet: &[u8],
    at: usize,
    columns: usize,
    count: usize,
    out: &mut [u32],
) -> bool
    requires { LinesAsks at columns count out.old }
    ensures { Read (column_word_at sheet.now at (line_length columns) columns) (count * columns) (lines_ok sheet.now at columns count) out.new result }
{
    for i in 0..count {
        if !read_line(sheet, at, columns, i, out) {
            return false;
        }
    }
    true
}

// Line i: a column of twenty, then LF. Its words are 1 for below zero or 0, and the size.
fn read_number(sheet: &[u8], at: usize, i: usize, out: &mut [u64]) -> bool
    requires { NumberAsks sheet.now at i out.old }
    ensures { Read (number_word sheet.now at) (i * 2 + 2) (number_line_ok sheet.now at i) out.new result }
{
    let place = at + i * NUMBER_LINE;
    let Some(number) = read_signed_column(sheet, place) else {
        return false;
    };
    out[i * 2] = number.below;
    out[i * 2 + 1] = number.size;
    is_line_feed(sheet, place + SIGNED_COLUMN)
}

pub(crate) fn read_numbers(sheet: &[u8], at: usize, count: usize, out: &mut [u64]) -> bool
    requires { NumbersAsks at count out.old }
    ensures { Read (number_word sheet.now at) (count * 2) (number_lines_ok sheet.now at count) out.new result }
{
    for i in 0..count {
        if !read_number(sheet, at, i, out) {
            return false;
        }
    }
    true
}
