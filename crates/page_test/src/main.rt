// Lays out pages and prints each answer with what it left in the page buffer. Each case on standard input is a line
// of three columns of six (the bytes of its sheet, those of its buffer, those to show of it) and a name in 40
// bytes, then the sheet. The buffer is 7s before the call.
#![tactic(auto)]

ghost use Rattle.std.specs.Prelude.{◌<◌, ◌≤◌, length};

use columns::read::read_column;
use input::read_full;
use page::teluddru_pages;
use std::io;
use std::io::Read;

fn number_at(header: &[u8], at: usize) -> isize {
    read_column(header, at).unwrap_or(0) as isize
}

fn wide(byte: u8) -> u64
    ensures { result < 256 }
{
    byte as u64
}

// A number that depends on every byte and its place.
fn checksum(bytes: &[u8]) -> u64 {
    let mut sum: u64 = 0;
    for byte in bytes {
        sum = (sum * 31 + wide(*byte)) % 1000003;
    }
    sum
}

// A number of the buffer's bytes: 0 for one below it, and at most all of them.
fn count(number: isize, bytes: &[u8]) -> usize
    ensures { result ≤ length bytes.now }
{
    if number <= 0 {
        return 0;
    }
    let n = number as usize;
    if n < bytes.len() {
        return n;
    }
    bytes.len()
}

fn print_number(rt: &impl Print, number: u32) -> io::Result<()> {
    print!(rt; "{number} ")
}

fn page_space() -> [u8; 113881] {
    [7; 113881]
}

fn print_space(rt: &impl Print, space: &[u8; 113881], shown: isize) -> io::Result<()> {
    let bytes = &space[..];
    let sum = checksum(bytes);
    println!(rt; "buffer {sum}")?;
    let n = count(shown, bytes);
    rt.write_all(&bytes[..n])
}

fn lay_out(rt: &impl Print, sheet: &[u8], size: isize, shown: isize) -> io::Result<()> {
    let mut space = page_space();
    let n = count(size, &space);
    let mut answer = [9u32; 4];
    print_number(rt, teluddru_pages(sheet, &mut space[..n], &mut answer))?;
    print!(rt; "answer ")?;
    for number in answer {
        print_number(rt, number)?;
    }
    print_space(rt, &space, shown)
}

fn read_sheet<R: Read>(from: &mut R, sheet: &mut [u8], length: isize) -> io::Result<()> {
    let n = count(length, sheet);
    read_full(from, &mut sheet[..n])?;
    Ok(())
}

fn sheet_space() -> [u8; 65536] {
    [0; 65536]
}

// Was there a case?
fn run_case<R: Read>(rt: &impl Print, from: &mut R) -> io::Result<bool> {
    let mut header = [0u8; 59];
    if read_full(from, &mut header)? < 59 {
        return Ok(false);
    }
    rt.write_all(&header[18..58])?;
    let mut sheet = sheet_space();
    let length = number_at(&header, 0);
    read_sheet(from, &mut sheet, length)?;
    let n = count(length, &sheet);
    lay_out(
        rt,
        &sheet[..n],
        number_at(&header, 6),
        number_at(&header, 12),
    )?;
    Ok(true)
}

// A proved loop has to end: there are fewer than 1,000 cases.
fn main(rt: HostRuntime) -> io::Result<()> {
    let mut reader = rt.reader();
    for _ in 0..1000 {
        if !run_case(&rt, &mut reader)? {
            return Ok(());
        }
    }
    Ok(())
}
