// The calls over lent tables for a C host: what C calls of the library c_calls, with the same clauses.
#![tactic(auto)]

ghost use Rattle.c_calls.specs.Bodies.{BodyCalledIn};
ghost use Rattle.c_calls.specs.Calls.{PlanCalledIn, RunCalledIn, ReportCalledIn};
ghost use Rattle.c_calls.specs.Examples.{given_side, ExampleCalledIn};
ghost use Rattle.c_calls.specs.Faults.{FaultCalledIn};
ghost use Rattle.c_calls.specs.Misses.{MissCalledIn};
ghost use Rattle.c_calls.specs.NameCall.{NameCalledIn};
ghost use Rattle.c_calls.specs.Tolerating.{ToleratedIn};
ghost use Rattle.std.specs.Prelude.{◌≡◌};
ghost use Rattle.table.specs.Lent.{lent};
ghost use Rattle.table.specs.Tables.{tables};

use table::tables::Tables;

// Plans the operation into the buffer, for a version of Rego: any but 1 is version 0. Roots that it doesn't use are ignored.
#[unsafe(no_mangle)]
pub extern "C" fn teluddru_plan<'a>(
    nodes: &[u32],
    children: &[u32],
    numbers: &[u64],
    names: &[u32],
    strings: &'a [u8],
    text: &'a [u8],
    marks: &[u8],
    operation: u32,
    scheduler: u32,
    scoping: u32,
    first: u32,
    second: u32,
    key: u32,
    version: u32,
    plan: &mut [u32],
    answer: &mut [u32],
) -> u32
    ensures { PlanCalledIn plan answer (lent nodes children numbers names strings text) marks operation scheduler scoping first second key version result }
{
    let tables = Tables {
        nodes,
        children,
        numbers,
        names,
        strings,
        text,
    };
    c_calls::planning::teluddru_plan(
        &tables, marks, operation, scheduler, scoping, first, second, key, version, plan, answer,
    )
}

// Runs the pattern on the value. `values` has for each name number the node of its value, or 0.
#[unsafe(no_mangle)]
pub extern "C" fn teluddru_run<'a>(
    nodes: &[u32],
    children: &[u32],
    numbers: &[u64],
    names: &[u32],
    strings: &'a [u8],
    text: &'a [u8],
    marks: &[u8],
    scheduler: u32,
    scoping: u32,
    pattern: u32,
    value: u32,
    values: &mut [u32],
    plan: &mut [u32],
    answer: &mut [u32],
) -> u32
    ensures { let T = lent nodes children numbers names strings text in RunCalledIn values plan answer T marks scheduler scoping pattern value result }
{
    let tables = Tables {
        nodes,
        children,
        numbers,
        names,
        strings,
        text,
    };
    c_calls::running::teluddru_run(
        &tables, marks, scheduler, scoping, pattern, value, values, plan, answer,
    )
}

// Runs the pattern on the value, whatever numbers from the lowest to the highest its nodes have. Node n has two words of each list, from word (n - 1) * 2 on.
#[unsafe(no_mangle)]
pub extern "C" fn teluddru_run_with_tolerance<'a>(
    nodes: &[u32],
    children: &[u32],
    numbers: &[u64],
    names: &[u32],
    strings: &'a [u8],
    text: &'a [u8],
    marks: &[u8],
    scheduler: u32,
    scoping: u32,
    pattern: u32,
    value: u32,
    values: &mut [u32],
    lowest: &[u64],
    highest: &[u64],
    plan: &mut [u32],
    answer: &mut [u32],
) -> u32
    ensures { ToleratedIn values lowest highest plan answer (lent nodes children numbers names strings text) marks scheduler scoping pattern value result }
{
    let tables = Tables {
        nodes,
        children,
        numbers,
        names,
        strings,
        text,
    };
    c_calls::tolerating::teluddru_run_with_tolerance(
        &tables, marks, scheduler, scoping, pattern, value, values, lowest, highest, plan, answer,
    )
}

// Where the run of the pattern on the value misses first. `values` has for each name number the node of its value, or 0.
#[unsafe(no_mangle)]
pub extern "C" fn teluddru_first_miss<'a>(
    nodes: &[u32],
    children: &[u32],
    numbers: &[u64],
    names: &[u32],
    strings: &'a [u8],
    text: &'a [u8],
    marks: &[u8],
    scheduler: u32,
    scoping: u32,
    pattern: u32,
    value: u32,
    values: &[u32],
    answer: &mut [u32],
) -> u32
    ensures { let T = lent nodes children numbers names strings text in MissCalledIn values answer T marks scheduler scoping pattern value result }
{
    let tables = Tables {
        nodes,
        children,
        numbers,
        names,
        strings,
        text,
    };
    c_calls::misses::teluddru_first_miss(
        &tables, marks, scheduler, scoping, pattern, value, values, answer,
    )
}

// For each name 1 bound in the pattern's plan, 2 met or a computed key but not bound there, else 0.
#[unsafe(no_mangle)]
pub extern "C" fn teluddru_names_report<'a>(
    nodes: &[u32],
    children: &[u32],
    numbers: &[u64],
    names: &[u32],
    strings: &'a [u8],
    text: &'a [u8],
    marks: &[u8],
    scheduler: u32,
    scoping: u32,
    pattern: u32,
    list: &mut [u32],
    answer: &mut [u32],
) -> u32
    ensures { let T = lent nodes children numbers names strings text in ReportCalledIn list answer T marks scheduler scoping pattern result }
{
    let tables = Tables {
        nodes,
        children,
        numbers,
        names,
        strings,
        text,
    };
    c_calls::reporting::teluddru_names_report(
        &tables, marks, scheduler, scoping, pattern, list, answer,
    )
}

// The first rule that is broken and its first place, with the number of the table check.
#[unsafe(no_mangle)]
pub extern "C" fn teluddru_table_fault<'a>(
    nodes: &[u32],
    children: &[u32],
    numbers: &[u64],
    names: &[u32],
    strings: &'a [u8],
    text: &'a [u8],
    marks: &[u8],
    answer: &mut [u32],
) -> u32
    ensures { FaultCalledIn answer (lent nodes children numbers names strings text) marks result }
{
    let tables = Tables {
        nodes,
        children,
        numbers,
        names,
        strings,
        text,
    };
    c_calls::faults::teluddru_table_fault(&tables, marks, answer)
}

// Adds the name that stands at a range of the text. The first `used` places of the name table hold names, the others are free.
#[unsafe(no_mangle)]
pub extern "C" fn teluddru_add_name<'a>(
    nodes: &[u32],
    children: &[u32],
    numbers: &[u64],
    names: &mut [u32],
    strings: &'a [u8],
    text: &'a [u8],
    used: u32,
    start: u32,
    size: u32,
    answer: &mut [u32],
) -> u32
    ensures { let T = tables nodes.now children.now numbers.now names.old strings.now text.now in NameCalledIn names answer T used start size result }
{
    c_calls::naming::teluddru_add_name(
        nodes, children, numbers, names, strings, text, used, start, size, answer,
    )
}

// Plans a body's lines in turn; after an accepted body the marks are those of the scope returned.
#[unsafe(no_mangle)]
pub extern "C" fn teluddru_plan_body<'a>(
    nodes: &[u32],
    children: &[u32],
    numbers: &[u64],
    names: &[u32],
    strings: &'a [u8],
    text: &'a [u8],
    marks: &mut [u8],
    scheduler: u32,
    lines: &[u32],
    plan: &mut [u32],
    answer: &mut [u32],
) -> u32
    ensures { BodyCalledIn marks plan answer (lent nodes children numbers names strings text) scheduler lines result }
{
    let tables = Tables {
        nodes,
        children,
        numbers,
        names,
        strings,
        text,
    };
    c_calls::bodies::teluddru_plan_body(&tables, marks, scheduler, lines, plan, answer)
}

// Gives a value that both patterns match, or none. Its nodes go on from the tables', its child entries from their child list.
#[unsafe(no_mangle)]
pub extern "C" fn teluddru_common_example<'a>(
    nodes: &[u32],
    children: &[u32],
    numbers: &[u64],
    names: &[u32],
    strings: &'a [u8],
    text: &'a [u8],
    marks1: &[u8],
    scheduler1: u32,
    scoping1: u32,
    pattern1: u32,
    values1: &[u32],
    marks2: &[u8],
    scheduler2: u32,
    scoping2: u32,
    pattern2: u32,
    values2: &[u32],
    example_nodes: &mut [u32],
    example_children: &mut [u32],
    answer: &mut [u32],
) -> u32
    ensures { let T = lent nodes children numbers names strings text in
        let first = given_side marks1 scheduler1 scoping1 pattern1 values1 in
        let second = given_side marks2 scheduler2 scoping2 pattern2 values2 in
        ExampleCalledIn T first second example_nodes example_children answer result }
{
    let tables = Tables {
        nodes,
        children,
        numbers,
        names,
        strings,
        text,
    };
    c_calls::examples::teluddru_common_example(
        &tables,
        marks1,
        scheduler1,
        scoping1,
        pattern1,
        values1,
        marks2,
        scheduler2,
        scoping2,
        pattern2,
        values2,
        example_nodes,
        example_children,
        answer,
    )
}

// The header's TELUDDRU_VERSION_NUMBER, of 0.1.0.
#[unsafe(no_mangle)]
pub extern "C" fn teluddru_version() -> u32
    ensures { result ≡ 100 }
{
    c_calls::version::teluddru_version()
}
