// Run over lent tables.
ghost use Rattle.table.specs.Contents.{contents};
ghost use Rattle.c_calls.specs.Calls.{RunCalledIn};

use crate::answer::{refuse, run_row};
use crate::given::{given, pattern_numbers, scope_of};
use operation::inner::tell;
use operation::numbers::scoping_of;
use planner::buffer::clear;
use run::run;
use table::tables::Tables;

// Runs the pattern on the value. `values` has for each name number the node of its value, or 0.
pub fn teluddru_run(
    tables: &Tables<'_>,
    marks: &[u8],
    scheduler: u32,
    scoping: u32,
    pattern: u32,
    value: u32,
    values: &mut [u32],
    plan: &mut [u32],
    answer: &mut [u32],
) -> u32
    ensures { let T = contents tables.now in RunCalledIn values plan answer T marks scheduler scoping pattern value result }
{
    let asked = pattern_numbers(scheduler, scoping, pattern);
    let scope = match given(tables, scope_of(marks, scheduler), asked) {
        Ok(scope) => scope,
        Err(refused) => {
            clear(plan);
            return refuse(answer, refused);
        }
    };
    let ran = run(
        tables,
        scope,
        scoping_of(scoping),
        pattern,
        value,
        values,
        plan,
    );
    tell(answer, run_row(ran))
}
