// Run over lent tables, with a lowest and a highest number for each node.
ghost use Rattle.table.specs.Contents.{contents};
ghost use Rattle.c_calls.specs.Tolerating.{ToleratedIn};

use crate::answer::{refuse, tolerance_row};
use crate::given::{given, pattern_numbers, scope_of};
use operation::inner::tell;
use operation::numbers::scoping_of;
use planner::buffer::clear;
use table::tables::Tables;
use tolerance::run_with_tolerance;

// Runs the pattern on the value, whatever numbers from the lowest to the highest its nodes have. Node n has two words of each list, from word (n - 1) * 2 on.
pub fn teluddru_run_with_tolerance(
    tables: &Tables<'_>,
    marks: &[u8],
    scheduler: u32,
    scoping: u32,
    pattern: u32,
    value: u32,
    values: &mut [u32],
    lowest: &[u64],
    highest: &[u64],
    plan: &mut [u32],
    answer: &mut [u32],
) -> u32
    ensures { ToleratedIn values lowest highest plan answer (contents tables.now) marks scheduler scoping pattern value result }
{
    let asked = pattern_numbers(scheduler, scoping, pattern);
    let scope = match given(tables, scope_of(marks, scheduler), asked) {
        Ok(scope) => scope,
        Err(refused) => {
            clear(plan);
            return refuse(answer, refused);
        }
    };
    let ran = run_with_tolerance(
        tables,
        scope,
        scoping_of(scoping),
        pattern,
        value,
        values,
        lowest,
        highest,
        plan,
    );
    tell(answer, tolerance_row(ran))
}
