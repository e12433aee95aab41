// Runs the cases of standard input, one to a line, and prints each line with what came of it: the
// answer, the list afterwards, and the plan buffer's words up to the last that is not 0.
//
// A line's columns: 0 the operation, `r` a run, `n` a names report; 1 the scoping, `R` RespectParent,
// `A` AllowShadowing; 3 to 6 the bytes of four names; 8 to 11 their marks; then three numbers of
// three columns, the names lent, the entries of the list and the words of the plan buffer; from 23
// on the pattern, the value, and the listed value of each name. The line itself is the rule text.
//
// List entries past the names hold NO_NODE before a run, and all of them before a report. The plan
// buffer holds 9s.
#![tactic(auto)]

ghost use Rattle.std.specs.Prelude.{◌≤◌, length};

use input::read_full;
use parse::{NO_NODE, Parsed, STRINGS, byte_at, first, parse};
use report::{ReportRefusal, names_report};
use run::{RunAnswer, RunRefusal, run};
use scope::{ByteScope, Scope, ScopingMode};
use std::io;
use table::tables::Tables;
use table::{TableRefusal, refusal_number};

mod parse;

// The four names, and as many more as take them past the limit.
fn names() -> [[u32; 2]; 129] {
    let mut records = [[1; 2]; 129];
    for (column, record) in (3..7).zip(&mut records) {
        *record = [column, 1];
    }
    records
}

fn digit_of(byte: u8) -> usize
    ensures { result ≤ 9 }
{
    match byte {
        b'0'..=b'9' => (byte - 48) as usize,
        _ => 0,
    }
}

// The number in three columns, blanks as zeros.
fn number_at(line: &[u8], at: usize) -> usize
    requires { at ≤ 255 }
    ensures { result ≤ 999 }
{
    digit_of(byte_at(line, at)) * 100
        + digit_of(byte_at(line, at + 1)) * 10
        + digit_of(byte_at(line, at + 2))
}

// `.` none, `b` bound, `s` bound in this scope, `u` unbound, `l` local, `g` global,
// `_` none, and the scope has its number for that of `_`.
fn mark_of(byte: u8) -> u8 {
    match byte {
        b'b' => 1,
        b's' => 3,
        b'u' => 4,
        b'l' => 8,
        b'g' => 16,
        _ => 0,
    }
}

fn underscore_of(byte: u8) -> u32 {
    match byte {
        b'_' => 4,
        _ => 0,
    }
}

fn scope_of(line: &[u8]) -> Scope {
    let mut marks = [0u8; 128];
    for (mark, column) in marks.iter_mut().zip(8..12) {
        *mark = mark_of(byte_at(line, column));
    }
    Scope::converted(ByteScope {
        marks,
        underscore: underscore_of(byte_at(line, 11)),
        scheduler: false,
    })
}

fn scoping_of(line: &[u8]) -> ScopingMode {
    if byte_at(line, 1) == b'A' {
        return ScopingMode::AllowShadowing;
    }
    ScopingMode::RespectParent
}

// The listed value of each name that is lent: after the pattern and the value the stack has these.
fn start_list(parsed: &Parsed, names: usize) -> [u32; 16] {
    let mut list = [NO_NODE; 16];
    for (i, entry) in list.iter_mut().enumerate().take(names.min(4)) {
        *entry = parsed.stack().get(i + 2).copied().unwrap_or(0);
    }
    list
}

fn carried_out(
    line: &[u8],
    parsed: &Parsed,
    list: &mut [u32],
    plan: &mut [u32],
) -> Result<RunAnswer, RunRefusal> {
    let names = names();
    let tables = Tables {
        nodes: parsed.nodes(),
        children: parsed.children(),
        numbers: parsed.numbers(),
        names: first(&names, number_at(line, 13)).as_flattened(),
        strings: &STRINGS,
        text: line,
    };
    run(
        &tables,
        scope_of(line),
        scoping_of(line),
        parsed.pattern,
        parsed.value,
        list,
        plan,
    )
}

fn reported(line: &[u8], parsed: &Parsed, list: &mut [u32]) -> Result<(), ReportRefusal> {
    let names = names();
    let tables = Tables {
        nodes: parsed.nodes(),
        children: parsed.children(),
        numbers: parsed.numbers(),
        names: first(&names, number_at(line, 13)).as_flattened(),
        strings: &STRINGS,
        text: line,
    };
    names_report(
        &tables,
        scope_of(line),
        scoping_of(line),
        parsed.pattern,
        list,
    )
}

fn print_refusal(rt: &impl Print, number: u64) -> io::Result<()> {
    print!(rt; "refused {number}")
}

fn print_needed(rt: &impl Print, needed: usize) -> io::Result<()> {
    print_refusal(rt, 6)?;
    print!(rt; ", needed {needed}")
}

fn number_of(answer: TableRefusal) -> u64 {
    refusal_number(answer) as u64
}

fn print_run(rt: &impl Print, answer: Result<RunAnswer, RunRefusal>) -> io::Result<()> {
    match answer {
        Ok(RunAnswer::Match) => print!(rt; "match"),
        Ok(RunAnswer::NoMatch) => print!(rt; "no match"),
        Err(RunRefusal::TableRefused(of)) => print_refusal(rt, number_of(of)),
        Err(RunRefusal::RootOutside) => print_refusal(rt, 5),
        Err(RunRefusal::ListTooShort) => print_refusal(rt, 20),
        Err(RunRefusal::PatternNotSimple) => print_refusal(rt, 21),
        Err(RunRefusal::NotAValue) => print_refusal(rt, 22),
        Err(RunRefusal::NameWithoutValue) => print_refusal(rt, 23),
        Err(RunRefusal::PlanTooLarge { needed }) => print_needed(rt, needed),
    }
}

fn print_report(rt: &impl Print, answer: Result<(), ReportRefusal>) -> io::Result<()> {
    match answer {
        Ok(()) => print!(rt; "reported"),
        Err(ReportRefusal::TableRefused(of)) => print_refusal(rt, number_of(of)),
        Err(ReportRefusal::RootOutside) => print_refusal(rt, 5),
        Err(ReportRefusal::ListTooShort) => print_refusal(rt, 20),
    }
}

fn print_words(rt: &impl Print, words: &[u32]) -> io::Result<()> {
    for word in words {
        print!(rt; " {word}")?;
    }
    Ok(())
}

// The words up to the last that is not 0.
fn used(words: &[u32]) -> &[u32]
    ensures { length result.now ≤ length words.now }
{
    match words.iter().rposition(|word| *word != 0) {
        Some(last) => &words[..=last],
        None => &[],
    }
}

fn run_case(rt: &impl Print, line: &[u8]) -> io::Result<()> {
    let parsed = parse(line, 23);
    let mut entries = start_list(&parsed, number_at(line, 13));
    let mut words = [9u32; 160];
    let Some(list) = entries.get_mut(..number_at(line, 16)) else {
        return Ok(());
    };
    let Some(plan) = words.get_mut(..number_at(line, 19)) else {
        return Ok(());
    };
    print_run(rt, carried_out(line, &parsed, list, plan))?;
    print!(rt; "; list")?;
    print_words(rt, list)?;
    print!(rt; "; plan")?;
    print_words(rt, used(plan))?;
    println!(rt)
}

fn report_case(rt: &impl Print, line: &[u8]) -> io::Result<()> {
    let parsed = parse(line, 23);
    let mut entries = [NO_NODE; 16];
    let Some(list) = entries.get_mut(..number_at(line, 16)) else {
        return Ok(());
    };
    print_report(rt, reported(line, &parsed, list))?;
    print!(rt; "; list")?;
    print_words(rt, list)?;
    println!(rt)
}

fn print_case(rt: &impl Print, line: &[u8]) -> io::Result<()> {
    rt.write_all(line)?;
    println!(rt)?;
    if byte_at(line, 0) == b'n' {
        return report_case(rt, line);
    }
    run_case(rt, line)
}

fn print_cases(rt: &impl Print, input: &[u8]) -> io::Result<()> {
    for line in input.split_inclusive(|byte| *byte == b'\n') {
        print_case(rt, line.strip_suffix(b"\n").unwrap_or(line))?;
    }
    Ok(())
}

// More than the cases of this crate's stdin have.
fn space() -> [u8; 65536] {
    [0; 65536]
}

fn main(rt: HostRuntime) -> io::Result<()> {
    let mut input = space();
    let mut reader = rt.reader();
    let n = read_full(&mut reader, &mut input)?;
    print_cases(&rt, &input[..n])
}
