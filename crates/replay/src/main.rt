// Runs a list of the Rust's answers through the sheet entry and prints how many agree. Each case on
// standard input is a line of two columns of six, the lengths of a sheet and of its listing, then
// the bytes of both.
#![tactic(auto)]

use columns::read::read_column;
use input::read_full;
use sheet::plan_sheet;
use std::io;
use std::io::Read;

fn length_at(header: &[u8], at: usize) -> usize {
    read_column(header, at).unwrap_or(0) as usize
}

// The next `count` bytes of the input, or none if it has fewer, or the buffer has no space for them.
fn read_part<'a, R: Read>(
    from: &mut R,
    buffer: &'a mut [u8],
    count: usize,
) -> io::Result<Option<&'a [u8]>> {
    let n = count.min(buffer.len());
    let read = read_full(from, &mut buffer[..n])?;
    if read < count {
        return Ok(None);
    }
    Ok(Some(&buffer[..count]))
}

fn agrees(sheet: &[u8], listing: &[u8], output: &mut [u8]) -> bool {
    let written = plan_sheet(sheet, output);
    output.get(..written) == Some(listing)
}

// More than the longest sheet, 51,914 bytes, and than the longest listing, 47,641.
fn space() -> [u8; 65536] {
    [0; 65536]
}

// Does the next case agree? None at the end of the list.
fn run_case<R: Read>(from: &mut R) -> io::Result<Option<bool>> {
    let mut header = [0u8; 13];
    let Some(header) = read_part(from, &mut header, 13)? else {
        return Ok(None);
    };
    let mut sheet = space();
    let Some(sheet) = read_part(from, &mut sheet, length_at(header, 0))? else {
        return Ok(None);
    };
    let mut listing = space();
    let Some(listing) = read_part(from, &mut listing, length_at(header, 6))? else {
        return Ok(None);
    };
    let mut output = space();
    Ok(Some(agrees(sheet, listing, &mut output)))
}

#[derive(Clone, Copy)]
struct Tally {
    agreed: u64,
    total: u64,
}

// A proved loop has to end: the list has fewer than 100,000 cases.
fn run_all<R: Read>(from: &mut R) -> io::Result<Tally> {
    let mut agreed: u64 = 0;
    for total in 0..100000 {
        let Some(agrees) = run_case(from)? else {
            return Ok(Tally { agreed, total });
        };
        agreed += u64::from(agrees);
    }
    Ok(Tally {
        agreed,
        total: 100000,
    })
}

fn main(rt: HostRuntime) -> io::Result<()> {
    let mut reader = rt.reader();
    let tally = run_all(&mut reader)?;
    let agreed = tally.agreed;
    let total = tally.total;
    println!(rt; "{agreed} of {total} agree")
}
