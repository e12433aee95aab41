// The names report over lent tables.
ghost use Rattle.table.specs.Contents.{contents};
ghost use Rattle.c_calls.specs.Calls.{ReportCalledIn};

use crate::answer::{refuse, report_row};
use crate::given::{given, pattern_numbers, scope_of};
use operation::inner::tell;
use operation::numbers::scoping_of;
use planner::buffer::clear;
use report::names_report;
use table::tables::Tables;

// For each name 1 bound in the pattern's plan, 2 met or a computed key but not bound there, else 0.
pub fn teluddru_names_report(
    tables: &Tables<'_>,
    marks: &[u8],
    scheduler: u32,
    scoping: u32,
    pattern: u32,
    list: &mut [u32],
    answer: &mut [u32],
) -> u32
    ensures { let T = contents tables.now in ReportCalledIn list answer T marks scheduler scoping pattern result }
{
    let asked = pattern_numbers(scheduler, scoping, pattern);
    let scope = match given(tables, scope_of(marks, scheduler), asked) {
        Ok(scope) => scope,
        Err(refused) => {
            clear(list);
            return refuse(answer, refused);
        }
    };
    let reported = names_report(tables, scope, scoping_of(scoping), pattern, list);
    tell(answer, report_row(reported))
}
