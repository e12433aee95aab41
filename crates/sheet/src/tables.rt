// The tables of a sheet, read into space for them.
ghost use Rattle.std.specs.Prelude.{◌*◌, ◌≤◌};
ghost use Rattle.sheet.specs.code.Post.{Filled, name_word, LinesAsks, NamesAsks, MarksAsks, MarksRead, NamesRead, TablesAsks, TablesRead};

use crate::header::Header;
use crate::lines::{read_lines, read_numbers};

const MOST_MARKS: u32 = 31;

// The lines of names are start, length, marks: starts and lengths, with the marks between them left out.
fn close_up(rows: &mut [u32], count: usize)
    requires { NamesAsks rows.old count }
    ensures { Filled (name_word rows.old) (count * 2) rows.new }
{
    let words = count * 2;
    for w in 0..words {
        rows[w] = rows[w / 2 * 3 + w % 2];
    }
}

// Whether all marks are 0 to 31.
fn fill_marks(rows: &[u32], count: usize, marks: &mut [u8]) -> bool
    requires { MarksAsks rows.now count marks.old }
    ensures { MarksRead rows.now count marks.old marks.new result }
{
    for x in 0..count {
        let mark = rows[x * 3 + 2];
        if MOST_MARKS < mark {
            return false;
        }
        marks[x] = mark as u8;
    }
    true
}

// The lines of names, into words and marks. Whether they are good.
fn read_names(
    sheet: &[u8],
    at: usize,
    count: usize,
    names: &mut [u32],
    marks: &mut [u8; 128],
) -> bool
    requires { LinesAsks at 3 count names.old × (count ≤ 128) }
    ensures { NamesRead sheet.now at count names.new marks.old marks.new result }
{
    if !read_lines(sheet, at, 3, count, names) {
        return false;
    }
    if !fill_marks(names, count, marks) {
        return false;
    }
    close_up(names, count);
    true
}

// All tables. Whether their layout is good.
pub(crate) fn read_tables(
    sheet: &[u8],
    header: Header,
    nodes: &mut [u32],
    children: &mut [u32],
    numbers: &mut [u64],
    names: &mut [u32],
    marks: &mut [u8; 128],
) -> bool
    requires { TablesAsks header nodes.old children.old numbers.old names.old }
    ensures { TablesRead sheet.now header.counts nodes.new children.new numbers.new names.new marks.old marks.new result }
{
    let counts = header.counts;
    let places = header.places;
    if !read_lines(sheet, places.nodes, 5, counts.nodes, nodes) {
        return false;
    }
    if !read_lines(sheet, places.children, 1, counts.children, children) {
        return false;
    }
    if !read_numbers(sheet, places.numbers, counts.numbers, numbers) {
        return false;
    }
    read_names(sheet, places.names, counts.names, names, marks)
}
