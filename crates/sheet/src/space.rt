// Space for a sheet's tables and its plan. For a listing nodes and plan have two sizes, as arrays have to be cleared, which for a small sheet would take longer than all else; the plan's is made once the tables are read.
ghost use Rattle.std.specs.Prelude.{◌≡◌, ◌*◌, ◌≤◌, length};
ghost use Rattle.sheet.specs.Listing.{listing_of};
ghost use Rattle.sheet.specs.code.Header.{Headed, refusal_number};
ghost use Rattle.sheet.specs.code.Post.{scope_in, PrintedIn, TriedIn, PlannedIn, RefusedIn, SheetHeld};

use crate::header::{Header, MOST_CHILDREN, MOST_NAMES, MOST_NODES, MOST_NUMBERS, SheetRefusal};
use crate::listing::{refuse, write_lines};
use crate::tables::read_tables;
use operation::REGO_V0;
use operation::numbers::{OperationNumbers, operation_of};
use operation::row::{Row, row_from, row_of};
use planner::buffer::{ENTRY_WORDS, clear};
use scope::{ByteScope, Scope};
use table::tables::Tables;

const PLAN_WORDS: usize = ENTRY_WORDS * 1536;

// The small space. What needs more entries is planned again: the longest plan found for 64 nodes is an `=` of 226.
const SMALL_PLAN_WORDS: usize = ENTRY_WORDS * 128;

const SMALL_NODES: usize = 64;

// The scope of a sheet. A good layout has no mark above 31, so none is refused here.
fn scope_of(marks: &[u8; 128], operation: OperationNumbers) -> Scope
    ensures { result ≡ scope_in operation marks.now }
{
    Scope::converted(ByteScope {
        marks: *marks,
        underscore: 0,
        scheduler: operation.scheduler == 1,
    })
}

// A refusal that has no place and no counts.
pub(crate) fn refuse_plan(refusal: SheetRefusal, plan: &mut [u32]) -> Row
    ensures { RefusedIn plan (refusal_number refusal) result }
{
    clear(plan);
    row_from(refusal.number(), 0, 0, 0)
}

// A sheet whose tables stand in arrays, perhaps longer than they are.
fn plan_tables(
    sheet: &[u8],
    header: Header,
    nodes: &[u32],
    children: &[u32],
    numbers: &[u64],
    names: &[u32],
    scope: Scope,
    plan: &mut [u32],
) -> Row
    requires { SheetHeld sheet.now header nodes.now children.now numbers.now names.now scope }
    ensures { PlannedIn plan sheet.now result }
{
    let counts = header.counts;
    let places = header.places;
    let operation = header.operation;
    let node_words = counts.nodes * 5;
    let child_words = counts.children;
    let number_words = counts.numbers * 2;
    let name_words = counts.names * 2;
    let strings = places.strings;
    let text = places.text;
    let end = places.end;
    let tables = Tables {
        nodes: &nodes[..node_words],
        children: &children[..child_words],
        numbers: &numbers[..number_words],
        names: &names[..name_words],
        strings: &sheet[strings..text],
        text: &sheet[text..end],
    };
    let answer = operation::plan(&tables, scope, operation_of(operation), REGO_V0, plan);
    row_of(answer)
}

// Plans a sheet into the plan that is lent: its tables are read, then planned.
pub(crate) fn plan_headed(sheet: &[u8], header: Header, plan: &mut [u32]) -> Row
    requires { Headed sheet.now header }
    ensures { PlannedIn plan sheet.now result }
{
    let mut nodes = [0u32; MOST_NODES * 5];
    let mut children = [0u32; MOST_CHILDREN];
    let mut numbers = [0u64; MOST_NUMBERS * 2];
    let mut names = [0u32; MOST_NAMES * 3];
    let mut marks = [0u8; 128];
    if !read_tables(
        sheet,
        header,
        &mut nodes,
        &mut children,
        &mut numbers,
        &mut names,
        &mut marks,
    ) {
        return refuse_plan(SheetRefusal::LayoutBroken, plan);
    }
    let scope = scope_of(&marks, header.operation);
    plan_tables(
        sheet, header, &nodes, &children, &numbers, &names, scope, plan,
    )
}

// Lists a sheet in the small space, if its plan needs no more.
fn list_small(
    sheet: &[u8],
    header: Header,
    nodes: &[u32],
    children: &[u32],
    numbers: &[u64],
    names: &[u32],
    scope: Scope,
    out: &mut [u8],
) -> Option<usize>
    requires { SheetHeld sheet.now header nodes.now children.now numbers.now names.now scope }
    ensures { TriedIn out (listing_of sheet.now) result }
{
    let mut plan = [0u32; SMALL_PLAN_WORDS];
    let first = plan_tables(
        sheet, header, nodes, children, numbers, names, scope, &mut plan,
    );
    if first.number == 6 {
        return None;
    }
    Some(write_lines(out, first, &plan))
}

fn list_full(
    sheet: &[u8],
    header: Header,
    nodes: &[u32],
    children: &[u32],
    numbers: &[u64],
    names: &[u32],
    scope: Scope,
    out: &mut [u8],
) -> usize
    requires { SheetHeld sheet.now header nodes.now children.now numbers.now names.now scope }
    ensures { PrintedIn out (listing_of sheet.now) result }
{
    let mut plan = [0u32; PLAN_WORDS];
    let first = plan_tables(
        sheet, header, nodes, children, numbers, names, scope, &mut plan,
    );
    write_lines(out, first, &plan)
}

// Few nodes are planned in the small space first: an `=` may need more entries than there are nodes.
fn list_tables(
    sheet: &[u8],
    header: Header,
    nodes: &[u32],
    children: &[u32],
    numbers: &[u64],
    names: &[u32],
    scope: Scope,
    out: &mut [u8],
) -> usize
    requires { SheetHeld sheet.now header nodes.now children.now numbers.now names.now scope }
    ensures { PrintedIn out (listing_of sheet.now) result }
{
    if SMALL_NODES < header.counts.nodes {
        return list_full(sheet, header, nodes, children, numbers, names, scope, out);
    }
    match list_small(sheet, header, nodes, children, numbers, names, scope, out) {
        Some(bytes) => bytes,
        None => list_full(sheet, header, nodes, children, numbers, names, scope, out),
    }
}

// The tables are read, the nodes into the space that is lent; then they are listed.
fn list_in(sheet: &[u8], header: Header, nodes: &mut [u32], out: &mut [u8]) -> usize
    requires { Headed sheet.now header × (header.counts.nodes * 5 ≤ length nodes.old) }
    ensures { PrintedIn out (listing_of sheet.now) result }
{
    let mut children = [0u32; MOST_CHILDREN];
    let mut numbers = [0u64; MOST_NUMBERS * 2];
    let mut names = [0u32; MOST_NAMES * 3];
    let mut marks = [0u8; 128];
    if !read_tables(
        sheet,
        header,
        nodes,
        &mut children,
        &mut numbers,
        &mut names,
        &mut marks,
    ) {
        return refuse(SheetRefusal::LayoutBroken, out);
    }
    let scope = scope_of(&marks, header.operation);
    list_tables(
        sheet, header, nodes, &children, &numbers, &names, scope, out,
    )
}

// Lists a sheet.
pub(crate) fn list_headed(sheet: &[u8], header: Header, out: &mut [u8]) -> usize
    requires { Headed sheet.now header }
    ensures { PrintedIn out (listing_of sheet.now) result }
{
    if SMALL_NODES < header.counts.nodes {
        let mut nodes = [0u32; MOST_NODES * 5];
        return list_in(sheet, header, &mut nodes, out);
    }
    let mut nodes = [0u32; SMALL_NODES * 5];
    list_in(sheet, header, &mut nodes, out)
}
