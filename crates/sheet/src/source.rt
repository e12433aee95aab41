// The text of a node, where it stands in the bytes of a sheet. Nothing is tested: a column that can't be read counts as 0, and what lies past the sheet is left out.
ghost use Rattle.std.specs.Prelude.{◌≡◌, ◌<◌, min};
ghost use Rattle.table.specs.Tables.{record_word};
ghost use Rattle.sheet.specs.Lines.{column_number};
ghost use Rattle.sheet.specs.Sheet.{nodes_of};
ghost use Rattle.sheet.specs.Source.{span_in};
ghost use Rattle.sheet.specs.code.Header.{NumberRead, CountsRead};

use crate::header::{Counts, NODE_LINE, NODES, places_of};
use crate::lines::COLUMN;
use columns::read::read_column;

// From a place to before another.
#[derive(Clone, Copy)]
pub struct Span {
    pub start: usize,
    pub end: usize,
}

fn at_most(a: usize, b: usize) -> usize
    ensures { result ≡ min a b }
{
    if a < b {
        return a;
    }
    b
}

fn number_at(sheet: &[u8], at: usize) -> usize
    ensures { NumberRead (column_number sheet.now at) result }
{
    read_column(sheet, at).unwrap_or(0) as usize
}

// What line 1 says.
fn counts_at(sheet: &[u8]) -> Counts
    ensures { CountsRead sheet.now result }
{
    Counts {
        nodes: number_at(sheet, 0),
        children: number_at(sheet, COLUMN),
        numbers: number_at(sheet, 2 * COLUMN),
        names: number_at(sheet, 3 * COLUMN),
        strings: number_at(sheet, 4 * COLUMN),
        text: number_at(sheet, 5 * COLUMN),
    }
}

// Word k of a node, or 0.
fn node_word(sheet: &[u8], counts: Counts, node: u32, k: usize) -> usize
    requires { k < 5 }
    ensures { NumberRead (record_word 5 k (nodes_of sheet.now counts) node) result }
{
    if node == 0 {
        return 0;
    }
    let i = node as usize - 1;
    if counts.nodes <= i {
        return 0;
    }
    number_at(sheet, NODES + i * NODE_LINE + k * COLUMN)
}

// Of a sheet that has no such node, an empty part.
pub fn source_of(sheet: &[u8], node: u32) -> Span
    ensures { result ≡ span_in sheet.now node }
{
    let counts = counts_at(sheet);
    let places = places_of(counts);
    let limit = at_most(places.end, sheet.len());
    let first = node_word(sheet, counts, node, 1);
    let last = node_word(sheet, counts, node, 2);
    let start = at_most(places.text + first, limit);
    let end = at_most(places.text + last, limit);
    if end < start {
        return Span { start, end: start };
    }
    Span { start, end }
}
