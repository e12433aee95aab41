// The lines of the pages.
ghost use Rattle.std.specs.Prelude.{◌≡◌, ◌++◌, ◌+◌, ◌-◌, ◌*◌, ◌≤◌, length, replicate, take};
ghost use Rattle.columns.specs.Columns.{stored};
ghost use Rattle.page.specs.Page.{number_width, kind_width, source_width, key_width, page_line_length, line_cells, blank_cells, cells_bytes, entry_lines, pages_lines, page_bytes};
ghost use Rattle.page.specs.code.Lines.{front_bytes, texts_bytes, entry_line, EntryAsks, EntriesAsks, PlanAsks};
ghost use Rattle.page.specs.Answer.{paged, LaidOutIn};
ghost use Rattle.sheet.specs.Source.{source_in};
ghost use Rattle.planner.specs.Entries.{read_entries};

use crate::PageRefusal;
use crate::cells::{KIND, write_cell, write_kind};
use columns::write::write_column;
use planner::buffer::ENTRY_WORDS;
use sheet::source::source_of;

// The columns of the other cells; those of number and kind, and of a line; a line's bytes.
const NUMBER: usize = 6;

const SOURCE: usize = 40;

const KEY: usize = 16;

const FRONT: usize = NUMBER + KIND;

const WIDTH: usize = FRONT + SOURCE + KEY;

pub(crate) const LINE: usize = WIDTH + 1;

pub(crate) const PAGE_LINES: usize = 60;

// An entry's number and kind.
fn write_front(out: &mut [u8], at: usize, number: u64, kind: u32)
    requires { at + (number_width + kind_width) ≤ length out.old }
    ensures { out.new ≡ stored out.old at (front_bytes number kind) }
{
    write_column(out, at, number);
    write_kind(out, at + NUMBER, kind);
}

// The source texts of its node and of its key.
fn write_texts(out: &mut [u8], at: usize, source: &[u8], key: &[u8])
    requires { at + (source_width + key_width) ≤ length out.old }
    ensures { out.new ≡ stored out.old at (texts_bytes source.now key.now) }
{
    write_cell(out, at, SOURCE, source);
    write_cell(out, at + SOURCE, KEY, key);
}

fn write_line(out: &mut [u8], at: usize, number: u64, kind: u32, source: &[u8], key: &[u8])
    requires { at + page_line_length ≤ length out.old }
    ensures { out.new ≡ stored out.old at (cells_bytes (line_cells number kind source.now key.now)) }
{
    write_front(out, at, number, kind);
    write_texts(out, at + FRONT, source, key);
    out[at + WIDTH] = b'\n';
}

// Entry i of the plan, whose number is i + 1.
fn write_entry(out: &mut [u8], sheet: &[u8], plan: &[u32], i: usize)
    requires { EntryAsks out.old plan.now i }
    ensures { out.new ≡ stored out.old (i * page_line_length) (entry_line (source_in sheet.now) plan.now i) }
{
    let words = i * ENTRY_WORDS;
    let source = source_of(sheet, plan[words + 1]);
    let start = source.start;
    let end = source.end;
    let key = source_of(sheet, plan[words + 3]);
    let key_start = key.start;
    let key_end = key.end;
    write_line(
        out,
        i * LINE,
        i as u64 + 1,
        plan[words],
        &sheet[start..end],
        &sheet[key_start..key_end],
    );
}

fn write_entries(out: &mut [u8], sheet: &[u8], plan: &[u32], count: usize)
    requires { EntriesAsks out.old plan.now count }
    ensures { out.new ≡ stored out.old 0 (page_bytes (entry_lines (source_in sheet.now) 1 (read_entries plan.now 0 count))) }
{
    for i in 0..count {
        write_entry(out, sheet, plan, i);
    }
}

fn write_blank_line(out: &mut [u8], at: usize)
    requires { at + page_line_length ≤ length out.old }
    ensures { out.new ≡ stored out.old at (cells_bytes blank_cells) }
{
    write_cell(out, at, WIDTH, b"");
    out[at + WIDTH] = b'\n';
}

// So many blank lines.
fn write_blank_lines(out: &mut [u8], at: usize, count: usize)
    requires { at + count * page_line_length ≤ length out.old }
    ensures { out.new ≡ stored out.old at (page_bytes (replicate count blank_cells)) }
{
    for line in 0..count {
        write_blank_line(out, at + line * LINE);
    }
}

// Zeros from a place on, if it is in the buffer.
fn clear_from(out: &mut [u8], at: usize)
    ensures { out.new ≡ take at out.old ++ replicate (length out.old - at) 0 }
{
    if at < out.len() {
        out[at..].fill(0);
    }
}

// A plan of so many entries, if its pages fit.
pub(crate) fn lay_out_plan(
    out: &mut [u8],
    sheet: &[u8],
    plan: &[u32],
    count: usize,
) -> Result<usize, PageRefusal>
    requires { PlanAsks plan.now count }
    ensures { LaidOutIn out (paged (pages_lines (source_in sheet.now) (read_entries plan.now 0 count))) result }
{
    let pages = (count + (PAGE_LINES - 1)) / PAGE_LINES;
    let lines = pages * PAGE_LINES;
    // In a buffer that is too short nothing is past the pages.
    clear_from(out, lines * LINE);
    if out.len() / LINE < lines {
        return Err(PageRefusal::BufferTooShort);
    }
    write_entries(out, sheet, plan, count);
    write_blank_lines(out, count * LINE, lines - count);
    Ok(pages)
}
