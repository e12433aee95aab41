// Lines 1 and 2: what the tables hold, where each stands, and the operation.
ghost use Rattle.std.specs.Prelude.{◌≡◌};
ghost use Rattle.sheet.specs.Sheet.{counts_ok};
ghost use Rattle.sheet.specs.code.Header.{counts_in, operation_in, places_of, Countable, refusal_number, heading_of};

use crate::lines::{COLUMN, NUMBER_LINE, read_lines};
use operation::numbers::{OperationNumbers, are_listed};

// The bytes of each kind of line, by its columns, and LF.
const HEAD_LINE: usize = 6 * COLUMN + 1;

pub(crate) const NODE_LINE: usize = 5 * COLUMN + 1;

const CHILD_LINE: usize = COLUMN + 1;

const NAME_LINE: usize = 3 * COLUMN + 1;

// Where the nodes begin.
pub(crate) const NODES: usize = 2 * HEAD_LINE;

// The limits.
pub(crate) const MOST_NODES: usize = 512;

pub(crate) const MOST_CHILDREN: usize = 512;

pub(crate) const MOST_NUMBERS: usize = 256;

pub(crate) const MOST_NAMES: usize = 128;

const MOST_STRINGS: usize = 8192;

const MOST_TEXT: usize = 16384;

// What line 1 says.
#[derive(Clone, Copy)]
pub(crate) struct Counts {
    pub nodes: usize,
    pub children: usize,
    pub numbers: usize,
    pub names: usize,
    pub strings: usize,
    pub text: usize,
}

// Where the parts begin, and where the sheet ends.
#[derive(Clone, Copy)]
pub(crate) struct Places {
    pub nodes: usize,
    pub children: usize,
    pub numbers: usize,
    pub names: usize,
    pub strings: usize,
    pub text: usize,
    pub end: usize,
}

#[derive(Clone, Copy)]
pub(crate) struct Header {
    pub counts: Counts,
    pub places: Places,
    pub operation: OperationNumbers,
}

// A refusal that has no place and no counts: a count of line 1 is over its limit, or the layout is broken.
#[derive(Clone, Copy)]
pub(crate) enum SheetRefusal {
    OverLimit,
    LayoutBroken,
}

impl SheetRefusal {
    pub(crate) fn number(self) -> u64
        ensures { result ≡ refusal_number self }
    {
        match self {
            SheetRefusal::OverLimit => 1,
            SheetRefusal::LayoutBroken => 7,
        }
    }
}

fn wide(x: u32) -> usize
    ensures { result ≡ x }
{
    x as usize
}

fn counts_of(line: [u32; 6]) -> Counts
    ensures { result ≡ counts_in line }
{
    Counts {
        nodes: wide(line[0]),
        children: wide(line[1]),
        numbers: wide(line[2]),
        names: wide(line[3]),
        strings: wide(line[4]),
        text: wide(line[5]),
    }
}

fn within_limits(counts: Counts) -> bool
    ensures { result ≡ counts_ok counts }
{
    if MOST_NODES < counts.nodes {
        return false;
    }
    if MOST_CHILDREN < counts.children {
        return false;
    }
    if MOST_NUMBERS < counts.numbers {
        return false;
    }
    if MOST_NAMES < counts.names {
        return false;
    }
    if MOST_STRINGS < counts.strings {
        return false;
    }
    counts.text <= MOST_TEXT
}

pub(crate) fn places_of(counts: Counts) -> Places
    requires { Countable counts }
    ensures { result ≡ places_of counts }
{
    let nodes = NODES;
    let children = nodes + counts.nodes * NODE_LINE;
    let numbers = children + counts.children * CHILD_LINE;
    let names = numbers + counts.numbers * NUMBER_LINE;
    let strings = names + counts.names * NAME_LINE;
    let text = strings + counts.strings;
    Places {
        nodes,
        children,
        numbers,
        names,
        strings,
        text,
        end: text + counts.text,
    }
}

fn operation_in(line: [u32; 6]) -> OperationNumbers
    ensures { result ≡ operation_in line }
{
    OperationNumbers {
        number: line[0],
        scheduler: line[1],
        scoping: line[2],
        first: line[3],
        second: line[4],
        key: line[5],
    }
}

// Both lines, and the length of the sheet.
pub(crate) fn read_header(sheet: &[u8]) -> Result<Header, SheetRefusal>
    ensures { result ≡ heading_of sheet.now }
{
    let mut line_1 = [0u32; 6];
    if !read_lines(sheet, 0, 6, 1, &mut line_1) {
        return Err(SheetRefusal::LayoutBroken);
    }
    let counts = counts_of(line_1);
    if !within_limits(counts) {
        return Err(SheetRefusal::OverLimit);
    }
    let places = places_of(counts);
    if sheet.len() != places.end {
        return Err(SheetRefusal::LayoutBroken);
    }
    let mut line_2 = [0u32; 6];
    if !read_lines(sheet, HEAD_LINE, 6, 1, &mut line_2) {
        return Err(SheetRefusal::LayoutBroken);
    }
    let operation = operation_in(line_2);
    if !are_listed(operation) {
        return Err(SheetRefusal::LayoutBroken);
    }
    Ok(Header {
        counts,
        places,
        operation,
    })
}
