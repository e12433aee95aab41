// Run: a pattern's plan, carried out on a value.
#![tactic(auto)]

ghost use Rattle.table.specs.Contents.{contents};
ghost use Rattle.std.specs.Prelude.{◌≡◌};
ghost use Rattle.run.specs.Operations.{RanIn};
ghost use Rattle.run.specs.code.Post.{RunAsks, MatchValuesAsks, ValuesCameIn, CarriedIn};
ghost use Rattle.run.specs.declared.RunRefusal.TheVariants.{TableRefused};

use inner::names::{set_names, start_list};
use inner::refusals::check_run;
use matching::inner::match_pattern;
use planner::buffer::{ENTRY_WORDS, PATTERN_WORDS, clear, close, copy_entries};
use planner::inner::destructuring::plan_pattern;
use scope::{Scope, ScopingMode};
use table::TableRefusal;
use table::tables::Tables;

pub mod inner;

#[derive(Clone, Copy)]
pub enum RunAnswer {
    Match,
    NoMatch,
}

#[derive(Clone, Copy)]
pub enum RunRefusal {
    TableRefused(TableRefusal),
    RootOutside,
    ListTooShort,
    PatternNotSimple,
    NotAValue,
    NameWithoutValue,
    PlanTooLarge { needed: usize },
}

impl From<TableRefusal> for RunRefusal {
    ghost from_gives = { λ table run. run ≡ TableRefused table };

    fn from(refused: TableRefusal) -> RunRefusal {
        RunRefusal::TableRefused(refused)
    }
}

// The plan in the scratch, carried out from the values in the list; a match sets the names with a binder.
fn match_values(
    tables: &Tables<'_>,
    scope: Scope,
    scoping: ScopingMode,
    scratch: &[u32; PATTERN_WORDS],
    count: usize,
    binders: &[u32; 128],
    value: u32,
    values: &mut [u32],
) -> RunAnswer
    requires { MatchValuesAsks (contents tables.now) scope scoping scratch.now count value values.old }
    ensures { let T = contents tables.now in ValuesCameIn values T scope scoping scratch.now count binders.now value result }
{
    let start = start_list(tables.names, scope, scoping, values);
    match match_pattern(tables, scratch, count, value, start) {
        Err(_) => RunAnswer::NoMatch,
        Ok(list) => {
            set_names(tables.names, binders, &list, values);
            RunAnswer::Match
        }
    }
}

// A run that no check refused: the plan in the buffer, if it has space, then carried out.
fn carry_out(
    tables: &Tables<'_>,
    scope: Scope,
    scoping: ScopingMode,
    pattern: u32,
    value: u32,
    values: &mut [u32],
    plan: &mut [u32],
) -> Result<RunAnswer, RunRefusal>
    requires { RunAsks (contents tables.now) scope scoping pattern value values.old }
    ensures { CarriedIn values plan (contents tables.now) scope scoping pattern value result }
{
    let mut binders = [0u32; 128];
    let mut scratch = [0u32; PATTERN_WORDS];
    let planned = plan_pattern(
        tables,
        scope,
        scoping,
        pattern,
        &mut binders,
        &mut scratch,
        0,
    );
    let count = planned.next;
    copy_entries(plan, 0, &scratch, count);
    let _ = close(plan, 0, count);
    if plan.len() / ENTRY_WORDS < count {
        return Err(RunRefusal::PlanTooLarge { needed: count });
    }
    Ok(match_values(
        tables, scope, scoping, &scratch, count, &binders, value, values,
    ))
}

// Plans the pattern into the buffer and carries the plan out on the value. `values` has for each name number the node of its value, or 0.
pub fn run(
    tables: &Tables<'_>,
    scope: Scope,
    scoping: ScopingMode,
    pattern: u32,
    value: u32,
    values: &mut [u32],
    plan: &mut [u32],
) -> Result<RunAnswer, RunRefusal>
    ensures { RanIn values plan (contents tables.now) scope scoping pattern value result }
{
    let checked = check_run(tables, scope, scoping, pattern, value, values);
    if let Err(refused) = checked {
        clear(plan);
        return Err(refused);
    }
    carry_out(tables, scope, scoping, pattern, value, values, plan)
}
