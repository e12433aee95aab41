// Plans the patterns of one table and prints a listing of each, as document 01 lays it out.
#![tactic(auto)]

use planner::buffer::ENTRY_WORDS;
use planner::destructuring::create_destructuring_plan;
use planner::parameters::{create_loop_index_binding_plan, create_parameter_binding_plan};
use planner::{Plan, PlanRefusal};
use scope::{ByteScope, Scope, ScopingMode};
use std::io;
use table::tables::Tables;
use table::{TableRefusal, refusal_number};

// Kind, start, end, first, count. k is bound, `input` is global.
const NODES: [[u32; 5]; 48] = [
    [6, 0, 1, 1, 0],
    [6, 0, 1, 1, 0],
    [7, 0, 0, 0, 2], // 3: [x, x]
    [1, 0, 0, 1, 1],
    [6, 0, 1, 1, 0],
    [1, 0, 0, 0, 1],
    [6, 0, 1, 1, 0],
    [9, 0, 0, 2, 2], // 8: {"b": x, "a": x}
    [6, 0, 1, 1, 0],
    [6, 1, 2, 2, 0],
    [6, 3, 4, 4, 0],
    [7, 0, 0, 6, 2],
    [3, 0, 0, 0, 0],
    [7, 0, 0, 8, 3], // 14: [x, [y, _], 7]
    [1, 0, 0, 0, 1],
    [6, 0, 1, 1, 0],
    [6, 1, 2, 2, 0],
    [6, 3, 4, 4, 0],
    [1, 0, 0, 0, 1],
    [6, 1, 2, 2, 0],
    [3, 0, 0, 0, 0],
    [6, 0, 1, 1, 0],
    [7, 0, 0, 11, 1],
    [9, 0, 0, 12, 4], // 24: {"a": x, y: _, "a": y, 7: [x]}
    [6, 0, 1, 1, 0],
    [8, 0, 0, 20, 1],
    [6, 1, 2, 2, 0],
    [7, 0, 0, 21, 2], // 28: [{x}, y]
    [6, 2, 3, 3, 0],
    [6, 0, 1, 1, 0],
    [7, 0, 0, 23, 2], // 31: [k, x]
    [6, 2, 3, 3, 0],
    [8, 0, 0, 25, 1],
    [6, 0, 1, 1, 0],
    [7, 0, 0, 26, 2], // 35: [{k}, x]
    [6, 4, 9, 5, 0],
    [8, 0, 0, 28, 1], // 37: {input}
    [6, 3, 4, 4, 0], // 38: _
    [1, 0, 0, 0, 1],
    [6, 2, 3, 3, 0],
    [8, 0, 0, 29, 1],
    [1, 0, 0, 0, 1],
    [6, 0, 1, 1, 0],
    [9, 0, 0, 30, 2], // 44: {"a": {k}, "a": x}
    [10, 0, 0, 0, 0],
    [5, 0, 0, 0, 0],
    [4, 0, 0, 1, 0],
    [7, 0, 0, 34, 3], // 48: [f(), null, true]
];

const CHILDREN: [u32; 40] = [
    1, 2, 4, 5, 6, 7, 10, 11, 9, 12, 13, 22, 15, 16, 17, 18, 19, 20, 21, 23, 25, 26, 27, 29, 30,
    32, 33, 34, 36, 40, 39, 41, 42, 43, 45, 46, 47, 3, 8, 14,
];

const NUMBERS: [u64; 2] = [0, 7];

const NAMES: [u32; 10] = [0, 1, 1, 1, 2, 1, 3, 1, 4, 5];

const STRINGS: [u8; 2] = *b"ab";

const TEXT: [u8; 9] = *b"xyk_input";

// What is planned, of a root.
#[derive(Clone, Copy)]
enum Asked {
    Pattern(ScopingMode, u32),
    LoopIndex(u32),
    Parameter(ScopingMode, u32),
}

// And the words of the buffer.
const CASES: [(Asked, usize); 21] = [
    (Asked::Pattern(ScopingMode::RespectParent, 3), 40),
    (Asked::Pattern(ScopingMode::RespectParent, 8), 40),
    (Asked::Pattern(ScopingMode::RespectParent, 14), 40),
    (Asked::Pattern(ScopingMode::RespectParent, 24), 40),
    (Asked::Pattern(ScopingMode::RespectParent, 28), 40),
    (Asked::Pattern(ScopingMode::RespectParent, 31), 40),
    (Asked::Pattern(ScopingMode::AllowShadowing, 31), 40),
    (Asked::LoopIndex(31), 40),
    (Asked::Parameter(ScopingMode::AllowShadowing, 31), 40),
    (Asked::Parameter(ScopingMode::AllowShadowing, 35), 40),
    (Asked::Parameter(ScopingMode::RespectParent, 35), 40),
    (Asked::Parameter(ScopingMode::AllowShadowing, 37), 40),
    (Asked::Parameter(ScopingMode::AllowShadowing, 38), 40),
    (Asked::Parameter(ScopingMode::AllowShadowing, 44), 40),
    (Asked::Pattern(ScopingMode::RespectParent, 44), 40),
    (Asked::Pattern(ScopingMode::RespectParent, 48), 40),
    (Asked::Pattern(ScopingMode::RespectParent, 3), 15), // just the plan
    (Asked::Pattern(ScopingMode::RespectParent, 3), 14), // one word short of it
    (Asked::Parameter(ScopingMode::AllowShadowing, 35), 0), // 17 comes before 6
    (Asked::LoopIndex(49), 40),
    (Asked::Pattern(ScopingMode::RespectParent, 0), 40),
];

fn scope() -> Scope {
    let mut marks = [0u8; 128];
    marks[2] = 1;
    marks[4] = 16;
    Scope::converted(ByteScope {
        marks,
        underscore: 4,
        scheduler: false,
    })
}

fn planned(asked: Asked, plan: &mut [u32]) -> Result<Plan, PlanRefusal> {
    let nodes = NODES.as_flattened();
    let tables = Tables {
        nodes,
        children: &CHILDREN,
        numbers: &NUMBERS,
        names: &NAMES,
        strings: &STRINGS,
        text: &TEXT,
    };
    match asked {
        Asked::Pattern(scoping, root) => create_destructuring_plan(
            &tables,
            scope(),
            scoping,
            root,
            plan,
        ),
        Asked::LoopIndex(root) => create_loop_index_binding_plan(&tables, scope(), root, plan),
        Asked::Parameter(scoping, root) => create_parameter_binding_plan(
            &tables,
            scope(),
            scoping,
            root,
            plan,
        ),
    }
}

// Each right-justified in six.
fn print_row(rt: &impl Print, a: u64, b: u64, c: u64, d: u64) -> io::Result<()> {
    println!(rt; "{a:>6}{b:>6}{c:>6}{d:>6}")
}

fn refusal(answer: TableRefusal) -> u64 {
    refusal_number(answer) as u64
}

// The answer's line; how many entries follow.
fn print_answer(rt: &impl Print, answer: Result<Plan, PlanRefusal>) -> io::Result<usize> {
    match answer {
        Ok(
            Plan {
                form,
                side,
                entries,
            },
        ) => {
            print_row(rt, 0, form as u64, side as u64, entries as u64)?;
            return Ok(entries);
        }
        Err(PlanRefusal::TableRefused(of)) => print_row(rt, refusal(of), 0, 0, 0)?,
        Err(PlanRefusal::RootOutside) => print_row(rt, 5, 0, 0, 0)?,
        Err(PlanRefusal::PlanTooLarge { needed }) => print_row(rt, 6, 0, needed as u64, 0)?,
        Err(PlanRefusal::VariableAlreadyDefined { name }) => print_row(rt, 17, name as u64, 0, 0)?,
        // of assignments alone
        _ => print_row(rt, 0, 0, 0, 0)?,
    }
    Ok(0)
}

fn print_entry(rt: &impl Print, words: &[u32]) -> io::Result<()> {
    for word in words {
        print!(rt; "{word:>6}")?;
    }
    println!(rt)
}

fn expect_cleared(rt: &impl Print, words: &[u32]) -> io::Result<()> {
    for _ in words.iter().filter(|word| **word != 0) {
        println!(rt; "not cleared")?;
    }
    Ok(())
}

// The entries, then any word after them that is not 0.
fn print_plan(rt: &impl Print, plan: &[u32], entries: usize) -> io::Result<()> {
    for (i, entry) in plan.chunks(ENTRY_WORDS).enumerate() {
        if i < entries {
            print_entry(rt, entry)?;
        } else {
            expect_cleared(rt, entry)?;
        }
    }
    Ok(())
}

fn run(rt: &impl Print, asked: Asked, size: usize) -> io::Result<()> {
    let mut buffer = [9u32; 40];
    let Some(plan) = buffer.get_mut(..size) else {
        return Ok(());
    };
    let entries = print_answer(rt, planned(asked, plan))?;
    print_plan(rt, plan, entries)
}

fn main(rt: HostRuntime) -> io::Result<()> {
    for (asked, size) in CASES {
        run(&rt, asked, size)?;
    }
    Ok(())
}
