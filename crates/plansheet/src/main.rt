// Reads a sheet from standard input and prints its listing.
#![tactic(auto)]

use input::read_full;
use sheet::plan_sheet;
use std::io;

// One byte more than the longest sheet: what is cut off changes no listing.
fn space() -> [u8; 51915] {
    [0; 51915]
}

// The longest listing, of 1,536 entries.
fn listing_space() -> [u8; 47641] {
    [0; 47641]
}

fn main(rt: HostRuntime) -> io::Result<()> {
    let mut input = space();
    let mut reader = rt.reader();
    let read = read_full(&mut reader, &mut input)?;
    let mut listing = listing_space();
    let written = plan_sheet(&input[..read], &mut listing);
    rt.write_all(&listing[..written])
}
