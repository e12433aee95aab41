// The report of a pattern's names.
#![tactic(auto)]

ghost use Rattle.table.specs.Contents.{contents};
ghost use Rattle.std.specs.Prelude.{◌≡◌};
ghost use Rattle.report.specs.Report.{ReportedIn};
ghost use Rattle.report.specs.code.Post.{EntryBound, marked_by, BoundAsks, BoundMarked, ReportAsks, PlannedMarked, ReportMarked};

use inner::mark_met;
use keys::names_reported;
use planner::buffer::{ENTRY_WORDS, PATTERN_WORDS, clear};
use planner::entry_kind;
use planner::inner::destructuring::plan_pattern;
use scope::{Scope, ScopingMode};
use table::reading::{first_of, is_node};
use table::tables::Tables;
use table::{TableRefusal, check};

pub mod inner;
mod keys;

#[derive(Clone, Copy)]
pub enum ReportRefusal {
    TableRefused(TableRefusal),
    RootOutside,
    ListTooShort,
}

// 1 for the name that an entry binds.
fn mark_entry(nodes: &[u32], kind: u32, node: u32, list: &mut [u32])
    requires { EntryBound nodes.now kind node list.old }
    ensures { list.new ≡ marked_by nodes.now kind node list.old }
{
    if kind == entry_kind::BIND {
        let name = first_of(nodes, node) as usize;
        list[name - 1] = 1;
    }
}

// 1 for each name that one of the first `count` entries binds.
fn mark_bound(nodes: &[u32], scratch: &[u32; PATTERN_WORDS], count: usize, list: &mut [u32])
    requires { BoundAsks nodes.now scratch.now count list.old }
    ensures { BoundMarked nodes.now scratch.now count list.old list.new }
{
    for i in 0..count {
        let kind = scratch[i * ENTRY_WORDS];
        let node = scratch[i * ENTRY_WORDS + 1];
        mark_entry(nodes, kind, node, list);
    }
}

// 1 for each name that the pattern's plan binds.
fn mark_planned(
    tables: &Tables<'_>,
    scope: Scope,
    scoping: ScopingMode,
    pattern: u32,
    list: &mut [u32],
)
    requires { ReportAsks (contents tables.now) pattern list.old }
    ensures { PlannedMarked (contents tables.now) scope scoping pattern list.old list.new }
{
    let mut binders = [0u32; 128];
    let mut scratch = [0u32; PATTERN_WORDS];
    let planned = plan_pattern(
        tables,
        scope,
        scoping,
        pattern,
        &mut binders,
        &mut scratch,
        0,
    );
    let count = planned.next;
    mark_bound(tables.nodes, &scratch, count, list);
}

// The report of a pattern of a good table, into a list that is long enough.
fn report_names(
    tables: &Tables<'_>,
    scope: Scope,
    scoping: ScopingMode,
    pattern: u32,
    list: &mut [u32],
)
    requires { ReportAsks (contents tables.now) pattern list.old }
    ensures { ReportMarked (contents tables.now) scope scoping pattern list.old list.new }
{
    let met = names_reported(tables, pattern);
    mark_met(&met, list);
    mark_planned(tables, scope, scoping, pattern, list);
}

// For each name 1 bound in the pattern's plan, 2 met or a computed key but not bound there, else 0.
pub fn names_report(
    tables: &Tables<'_>,
    scope: Scope,
    scoping: ScopingMode,
    pattern: u32,
    list: &mut [u32],
) -> Result<(), ReportRefusal>
    ensures { ReportedIn list (contents tables.now) scope scoping pattern result }
{
    let checked = check(tables, scope);
    if let Err(refused) = checked {
        clear(list);
        return Err(ReportRefusal::TableRefused(refused));
    }
    if !is_node(tables.nodes, pattern) {
        clear(list);
        return Err(ReportRefusal::RootOutside);
    }
    if list.len() < tables.names.len() / 2 {
        clear(list);
        return Err(ReportRefusal::ListTooShort);
    }
    report_names(tables, scope, scoping, pattern, list);
    Ok(())
}
