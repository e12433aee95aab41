// The flush-sides rule, `[w, w]`, by the three calls of teluddru: planned, its names reported, and run on two values. The example of a caller in Rattle.
#![tactic(auto)]

mod calls;

use operation::{Operation, REGO_V0};
use planner::buffer::ENTRY_WORDS;
use planner::{Plan, PlanRefusal};
use report::ReportRefusal;
use run::{RunAnswer, RunRefusal};
use scope::{Scope, ScopingMode};
use std::io;
use teluddru::Name;

const TEXT: [u8; 24] = *b"[w, w] [18, 16] [18, 18]";

// Kind, start, end, first, count.
const NODES: [[u32; 5]; 9] = [
    [6, 1, 2, 1, 0],
    [6, 4, 5, 1, 0],
    [7, 0, 6, 0, 2], // 3: [w, w]
    [3, 8, 10, 0, 0],
    [3, 12, 14, 1, 0],
    [7, 7, 15, 2, 2], // 6: [18, 16]
    [3, 17, 19, 0, 0],
    [3, 21, 23, 0, 0],
    [7, 16, 24, 4, 2], // 9: [18, 18]
];

const CHILDREN: [u32; 6] = [1, 2, 4, 5, 7, 8];

// Below zero or not, and the size.
const NUMBERS: [u64; 4] = [0, 18, 0, 16];

const STRINGS: [u8; 0] = [];

const PATTERN: u32 = 3;

// The name, by its place in the text.
fn w() -> Name {
    Name {
        start: 1,
        length: 1,
    }
}

// No name is bound before.
fn scope() -> Scope {
    Scope::new(0, false)
}

fn plan_rule(plan: &mut [u32]) -> Result<Plan, PlanRefusal> {
    calls::plan(
        NODES.as_flattened(),
        &CHILDREN,
        &NUMBERS,
        w(),
        &STRINGS,
        &TEXT,
        scope(),
        Operation::Pattern {
            scoping: ScopingMode::RespectParent,
            root: PATTERN,
        },
        REGO_V0,
        plan,
    )
}

fn report_names(list: &mut [u32]) -> Result<(), ReportRefusal> {
    calls::names_report(
        NODES.as_flattened(),
        &CHILDREN,
        &NUMBERS,
        w(),
        &STRINGS,
        &TEXT,
        scope(),
        ScopingMode::RespectParent,
        PATTERN,
        list,
    )
}

fn run_on(value: u32, values: &mut [u32], plan: &mut [u32]) -> Result<RunAnswer, RunRefusal> {
    calls::run(
        NODES.as_flattened(),
        &CHILDREN,
        &NUMBERS,
        w(),
        &STRINGS,
        &TEXT,
        scope(),
        ScopingMode::RespectParent,
        PATTERN,
        value,
        values,
        plan,
    )
}

// Each word after a blank.
fn print_entry(rt: &impl Print, words: &[u32]) -> io::Result<()> {
    for word in words {
        print!(rt; " {word}")?;
    }
    println!(rt)
}

fn print_plan(rt: &impl Print) -> io::Result<()> {
    let mut plan = [0u32; 3 * ENTRY_WORDS];
    let said = match plan_rule(&mut plan) {
        Ok(_) => "planned",
        Err(_) => "refused",
    };
    println!(rt; "{said}")?;
    for entry in plan.chunks(ENTRY_WORDS) {
        print_entry(rt, entry)?;
    }
    Ok(())
}

// 1: w is bound in the plan.
fn print_report(rt: &impl Print) -> io::Result<()> {
    let mut list = [0u32; 1];
    let said = match report_names(&mut list) {
        Ok(()) => "reported",
        Err(_) => "refused",
    };
    println!(rt; "{said}, w {}", list[0])
}

// The answer, and the node of the value of w, or 0.
fn print_run(rt: &impl Print, value: u32) -> io::Result<()> {
    let mut values = [0u32; 1];
    let mut plan = [0u32; 3 * ENTRY_WORDS];
    let said = match run_on(value, &mut values, &mut plan) {
        Ok(RunAnswer::Match) => "match",
        Ok(RunAnswer::NoMatch) => "no match",
        Err(_) => "refused",
    };
    println!(rt; "{said}, w {}", values[0])
}

fn main(rt: HostRuntime) -> io::Result<()> {
    print_plan(&rt)?;
    print_report(&rt)?;
    print_run(&rt, 6)?;
    print_run(&rt, 9)
}
