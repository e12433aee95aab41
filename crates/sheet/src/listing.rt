// The listing: the answer's line, then a line for each entry of the plan.
ghost use Rattle.std.specs.Prelude.{◌≡◌, ◌+◌, ◌*◌, ◌≤◌, length, get_or, replicate};
ghost use Rattle.planner.specs.Entries.{entry_at, read_entries};
ghost use Rattle.planner.specs.Layout.{entry_words};
ghost use Rattle.operation.specs.Rows.{row_line};
ghost use Rattle.columns.specs.Columns.{stored};
ghost use Rattle.sheet.specs.Lines.{column_place, line_length};
ghost use Rattle.sheet.specs.Listing.{four_columns, line_bytes, entry_line, entry_bytes, entries_bytes, lines_bytes};
ghost use Rattle.sheet.specs.code.Header.{refusal_number};
ghost use Rattle.sheet.specs.code.Post.{write_pair, entries_in, answer_lines, EntryAsks, EntriesAsks, PrintedIn, refusal_bytes};

use crate::header::SheetRefusal;
use crate::lines::COLUMN;
use columns::write::write_column;
use operation::row::{Row, row_from};
use planner::buffer::ENTRY_WORDS;

// Two columns; where the LF stands in the first line, and its length; the same of an entry's line.
const PAIR: usize = 2 * COLUMN;

const FEED: usize = 4 * COLUMN;

const LINE: usize = FEED + 1;

const ENTRY_FEED: usize = ENTRY_WORDS * COLUMN;

const ENTRY_LINE: usize = ENTRY_FEED + 1;

// The entries that follow a line.
fn entries_in(row: Row) -> usize
    ensures { result ≡ entries_in (row_line row) }
{
    if row.number == 0 {
        return row.fourth as usize;
    }
    0
}

// Two columns side by side.
fn write_pair(out: &mut [u8], at: usize, left: u64, right: u64)
    requires { column_place at 2 ≤ length out.old }
    ensures { out.new ≡ stored out.old at (write_pair left right) }
{
    write_column(out, at, left);
    write_column(out, at + COLUMN, right);
}

fn write_four(out: &mut [u8], at: usize, row: Row)
    requires { column_place at 4 ≤ length out.old }
    ensures { out.new ≡ stored out.old at (four_columns (row_line row)) }
{
    write_pair(out, at, row.number, row.second);
    write_pair(out, at + PAIR, row.third, row.fourth);
}

fn write_row(out: &mut [u8], at: usize, row: Row)
    requires { at + line_length 4 ≤ length out.old }
    ensures { out.new ≡ stored out.old at (line_bytes (row_line row)) }
{
    write_four(out, at, row);
    out[at + FEED] = 10;
}

fn word_of(plan: &[u32], i: usize) -> u64
    ensures { result ≡ get_or plan.now i 0 }
{
    if i < plan.len() {
        return plan[i] as u64;
    }
    0
}

fn entry_row(plan: &[u32], i: usize) -> Row
    requires { i * entry_words + entry_words ≤ length plan.now }
    ensures { row_line result ≡ entry_line (entry_at plan.now i) }
{
    let at = i * ENTRY_WORDS;
    row_from(
        word_of(plan, at),
        word_of(plan, at + 1),
        word_of(plan, at + 2),
        word_of(plan, at + 3),
    )
}

// Entry i of the plan.
fn write_entry(out: &mut [u8], at: usize, plan: &[u32], i: usize)
    requires { EntryAsks out.old at plan.now i }
    ensures { out.new ≡ stored out.old at (entry_bytes (entry_at plan.now i)) }
{
    write_four(out, at, entry_row(plan, i));
    write_column(out, at + FEED, word_of(plan, i * ENTRY_WORDS + 4));
    out[at + ENTRY_FEED] = 10;
}

// The entries of the plan, after the answer's line.
fn write_entries(out: &mut [u8], plan: &[u32], count: usize)
    requires { EntriesAsks out.old plan.now count }
    ensures { out.new ≡ stored out.old (line_length 4) (entries_bytes (read_entries plan.now 0 count)) }
{
    for i in 0..count {
        write_entry(out, LINE + i * ENTRY_LINE, plan, i);
    }
}

fn clear(out: &mut [u8])
    ensures { out.new ≡ replicate (length out.old) 0 }
{
    out.fill(0);
}

// The answer and its plan in the output, if they fit. How many bytes were written.
pub(crate) fn write_lines(out: &mut [u8], first: Row, plan: &[u32]) -> usize
    requires { entries_in (row_line first) * entry_words ≤ length plan.now }
    ensures { PrintedIn out (lines_bytes (answer_lines (row_line first) plan.now)) result }
{
    clear(out);
    let count = entries_in(first);
    if out.len() < LINE {
        return 0;
    }
    if (out.len() - LINE) / ENTRY_LINE < count {
        return 0;
    }
    write_row(out, 0, first);
    write_entries(out, plan, count);
    LINE + count * ENTRY_LINE
}

// A refusal that has no place and no counts.
pub(crate) fn refuse(refusal: SheetRefusal, out: &mut [u8]) -> usize
    ensures { PrintedIn out (refusal_bytes (refusal_number refusal)) result }
{
    let no_plan = [0u32; 1];
    write_lines(out, row_from(refusal.number(), 0, 0, 0), &no_plan)
}
