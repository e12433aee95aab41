// The planning call over lent tables.
ghost use Rattle.table.specs.Contents.{contents};
ghost use Rattle.c_calls.specs.Calls.{PlanCalledIn};

use crate::answer::refuse;
use crate::given::{given, scope_of};
use operation::inner::tell;
use operation::numbers::{OperationNumbers, operation_of};
use operation::row::row_of;
use planner::buffer::clear;
use table::tables::Tables;

// Plans the operation into the buffer, for a version of Rego: any but 1 is version 0. Roots that it doesn't use are ignored.
pub fn teluddru_plan(
    tables: &Tables<'_>,
    marks: &[u8],
    operation: u32,
    scheduler: u32,
    scoping: u32,
    first: u32,
    second: u32,
    key: u32,
    version: u32,
    plan: &mut [u32],
    answer: &mut [u32],
) -> u32
    ensures { PlanCalledIn plan answer (contents tables.now) marks operation scheduler scoping first second key version result }
{
    let asked = OperationNumbers {
        number: operation,
        scheduler,
        scoping,
        first,
        second,
        key,
    };
    let scope = match given(tables, scope_of(marks, scheduler), asked) {
        Ok(scope) => scope,
        Err(refused) => {
            clear(plan);
            return refuse(answer, refused);
        }
    };
    let planned = operation::plan(tables, scope, operation_of(asked), version, plan);
    tell(answer, row_of(planned))
}
