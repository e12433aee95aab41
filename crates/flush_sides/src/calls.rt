// The three calls of teluddru for a rule of one name, lent as a table of one record.
use operation::Operation;
use planner::{Plan, PlanRefusal};
use report::ReportRefusal;
use run::{RunAnswer, RunRefusal};
use scope::{Scope, ScopingMode};
use teluddru::{Name, over_records};

pub(crate) fn plan<'a>(
    nodes: &[u32],
    children: &[u32],
    numbers: &[u64],
    name: Name,
    strings: &'a [u8],
    text: &'a [u8],
    scope: Scope,
    operation: Operation,
    version: u32,
    plan: &mut [u32],
) -> Result<Plan, PlanRefusal> {
    let names = [name];
    over_records::plan(
        nodes, children, numbers, &names, strings, text, scope, operation, version, plan,
    )
}

pub(crate) fn names_report<'a>(
    nodes: &[u32],
    children: &[u32],
    numbers: &[u64],
    name: Name,
    strings: &'a [u8],
    text: &'a [u8],
    scope: Scope,
    scoping: ScopingMode,
    pattern: u32,
    list: &mut [u32],
) -> Result<(), ReportRefusal> {
    let names = [name];
    over_records::names_report(
        nodes, children, numbers, &names, strings, text, scope, scoping, pattern, list,
    )
}

pub(crate) fn run<'a>(
    nodes: &[u32],
    children: &[u32],
    numbers: &[u64],
    name: Name,
    strings: &'a [u8],
    text: &'a [u8],
    scope: Scope,
    scoping: ScopingMode,
    pattern: u32,
    value: u32,
    values: &mut [u32],
    plan: &mut [u32],
) -> Result<RunAnswer, RunRefusal> {
    let names = [name];
    over_records::run(
        nodes, children, numbers, &names, strings, text, scope, scoping, pattern, value, values,
        plan,
    )
}
