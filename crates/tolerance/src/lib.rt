// A run on values whose numbers have a tolerance.
#![tactic(auto)]

ghost use Rattle.table.specs.Contents.{contents};
ghost use Rattle.std.specs.Prelude.{◌≡◌, Ok};
ghost use Rattle.tolerance.specs.Operations.{Judged, JudgedIn};
ghost use Rattle.tolerance.specs.code.Post.{ToJudge, GivenAsks, given_ok};
ghost use Rattle.tolerance.specs.declared.ToleranceRefusal.TheVariants.{Run};

use deciding::decide;
use names::{known_values, set_names};
use planner::buffer::{ENTRY_WORDS, clear, close};
use planner::inner::destructuring::plan_pattern;
use ranges::{Ranges, names_ok, numbers_ok};
use run::{RunRefusal, run};
use scope::{Scope, ScopingMode};
use table::tables::Tables;

mod classes;
mod deciding;
mod meeting;
mod names;
mod number;
mod ranges;

// All choices match, some do, none does.
#[derive(Clone, Copy)]
pub enum ToleranceAnswer {
    Always,
    Sometimes,
    Never,
}

// 32, or a refusal that a run gives.
#[derive(Clone, Copy)]
pub enum ToleranceRefusal {
    RangeWrong,
    Run(RunRefusal),
}

impl From<RunRefusal> for ToleranceRefusal {
    ghost from_gives = { λ run refusal. refusal ≡ Run run };

    fn from(refused: RunRefusal) -> ToleranceRefusal {
        ToleranceRefusal::Run(refused)
    }
}

// Has every number of the value and of the known names' values, object keys aside, a range?
fn ranges_given(tables: &Tables<'_>, value: u32, ranges: &Ranges<'_>, list: &[u32; 128]) -> bool
    requires { GivenAsks (contents tables.now) value list.now }
    ensures { let T = contents tables.now in result ≡ given_ok T value ranges.now.lowest.now ranges.now.highest.now list.now }
{
    if ranges.lowest.len() / 2 < tables.nodes.len() / 5 {
        return false;
    }
    if ranges.highest.len() / 2 < tables.nodes.len() / 5 {
        return false;
    }
    if !numbers_ok(tables, ranges, value) {
        return false;
    }
    names_ok(tables, ranges, list)
}

// A run that nothing refuses: the plan in the buffer, then the answer.
fn judge(
    tables: &Tables<'_>,
    scope: Scope,
    scoping: ScopingMode,
    pattern: u32,
    value: u32,
    values: &mut [u32],
    ranges: &Ranges<'_>,
    known: [u32; 128],
    plan: &mut [u32],
) -> ToleranceAnswer
    requires { let R = ranges.now in ToJudge (contents tables.now) scope scoping pattern value values.old R.lowest.now R.highest.now known plan.old }
    ensures { let T = contents tables.now in let R = ranges.now in
        Judged T scope scoping pattern value values.old R.lowest.now R.highest.now plan.old values.new plan.new (Ok result) }
{
    let mut binders = [0u32; 128];
    let planned = plan_pattern(tables, scope, scoping, pattern, &mut binders, plan, 0);
    let _ = close(plan, 0, planned.next);
    let mut list = known;
    let answer = decide(tables, ranges, &mut list, pattern, value);
    if let ToleranceAnswer::Always = answer {
        set_names(tables.names, &list, values);
        return answer;
    }
    answer
}

// Runs the pattern on the value for all choices of a number from the lowest to the highest of each node, two words a node in each list.
pub fn run_with_tolerance(
    tables: &Tables<'_>,
    scope: Scope,
    scoping: ScopingMode,
    pattern: u32,
    value: u32,
    values: &mut [u32],
    lowest: &[u64],
    highest: &[u64],
    plan: &mut [u32],
) -> Result<ToleranceAnswer, ToleranceRefusal>
    ensures { JudgedIn values lowest highest plan (contents tables.now) scope scoping pattern value result }
{
    // Without space for a plan a run is refused with 6, unless it is with another number.
    let mut none = [0u32; 1];
    let Err(asked) = run(tables, scope, scoping, pattern, value, values, &mut none) else {
        unreachable!()
    };
    let RunRefusal::PlanTooLarge { needed } = asked else {
        clear(plan);
        return Err(asked.into());
    };
    let ranges = Ranges { lowest, highest };
    let known = known_values(tables.names, tables.text, scope, scoping, values);
    if !ranges_given(tables, value, &ranges, &known) {
        clear(plan);
        return Err(ToleranceRefusal::RangeWrong);
    }
    if plan.len() / ENTRY_WORDS < needed {
        clear(plan);
        return Err(asked.into());
    }
    Ok(judge(
        tables, scope, scoping, pattern, value, values, &ranges, known, plan,
    ))
}
