// Reads a sheet from standard input and prints its plan on pages, or the refusal's line.
#![tactic(auto)]

use input::read_full;
use page::{PAGE_BYTES, PageRefusal, lay_out_pages};
use sheet::plan_sheet;
use std::io;

// One byte more than the longest sheet: what is cut off changes no page.
fn space() -> [u8; 51915] {
    [0; 51915]
}

// The pages of 1,536 entries, the most that there are.
fn pages_space() -> [u8; 113880] {
    [0; 113880]
}

// A refused sheet has a listing of one line.
fn print_refusal(rt: &impl Print, sheet: &[u8]) -> io::Result<()> {
    let mut line = [0u8; 25];
    let written = plan_sheet(sheet, &mut line);
    rt.write_all(&line[..written])
}

fn print_pages(rt: &impl Print, sheet: &[u8]) -> io::Result<()> {
    let mut pages = pages_space();
    match lay_out_pages(sheet, &mut pages) {
        Ok(count) => rt.write_all(&pages[..count * PAGE_BYTES]),
        Err(PageRefusal::SheetRefused(_)) => print_refusal(rt, sheet),
        // Not with space for all pages.
        Err(PageRefusal::BufferTooShort) => Ok(()),
    }
}

fn main(rt: HostRuntime) -> io::Result<()> {
    let mut input = space();
    let mut reader = rt.reader();
    let read = read_full(&mut reader, &mut input)?;
    print_pages(&rt, &input[..read])
}
