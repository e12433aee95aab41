// The common example over lent tables: a value that two patterns both match.
ghost use Rattle.table.specs.Contents.{contents};
ghost use Rattle.std.specs.Prelude.{◌≡◌};
ghost use Rattle.scope.specs.Bytes.{conversion_of};
ghost use Rattle.operation.specs.Rows.{row_line};
ghost use Rattle.base.specs.Refusal.{refusal_line};
ghost use Rattle.common_example.specs.Answer.{side_refused};
ghost use Rattle.common_example.specs.Common.{example_result};
ghost use Rattle.c_calls.specs.Examples.{example_line, OfHost, ExampleFirst, SecondRefusedIn, MarkedIn, given_side, ExampleCalledIn};

use crate::answer::refuse;
use crate::given::{GivenRefusal, given, given_scope, pattern_numbers, scope_of};
use common_example::example::{Example, ExampleRefusal};
use common_example::sides::{ScopedPattern, SideRefusal};
use common_example::{common_example, refused_side};
use operation::inner::tell;
use operation::numbers::{OperationNumbers, are_listed, scoping_of};
use operation::row::{Row, row_from};
use planner::buffer::clear;
use scope::{MarkOutside, Scope};
use table::tables::Tables;
use table::{TableRefusal, refusal_number};

fn side_row(refused: SideRefusal) -> Row
    ensures { row_line result ≡ refusal_line (side_refused refused) }
{
    match refused {
        SideRefusal::TableRefused(refused) => row_from(refusal_number(refused) as u64, 0, 0, 0),
        SideRefusal::RootOutside => row_from(5, 0, 0, 0),
        SideRefusal::ListTooShort => row_from(20, 0, 0, 0),
        SideRefusal::PatternNotSimple => row_from(21, 0, 0, 0),
        SideRefusal::NotAValue => row_from(22, 0, 0, 0),
        SideRefusal::NameWithoutValue => row_from(23, 0, 0, 0),
    }
}

fn example_row(answer: Result<Option<Example>, ExampleRefusal>) -> Row
    ensures { row_line result ≡ example_line (example_result answer) }
{
    match answer {
        Ok(Some(found)) => row_from(
            0,
            found.node as u64,
            found.nodes as u64,
            found.children as u64,
        ),
        Ok(None) => row_from(100, 0, 0, 0),
        Err(ExampleRefusal::SideRefused(refused)) => side_row(refused),
        Err(ExampleRefusal::ValueTooLarge) => row_from(36, 0, 0, 0),
    }
}

// A side as a C host gives it: what the conversion of its marks answered, its numbers as an operation, and its pattern.
#[derive(Clone, Copy)]
struct HostSide {
    pub made: Result<Scope, MarkOutside>,
    pub asked: OperationNumbers,
    pub pattern: ScopedPattern,
}

fn host_side(marks: &[u8], scheduler: u32, scoping: u32, pattern: u32) -> HostSide
    ensures { OfHost marks.now scheduler scoping pattern result }
{
    let made = scope_of(marks, scheduler);
    let asked = pattern_numbers(scheduler, scoping, pattern);
    let pattern = ScopedPattern {
        scope: given_scope(made),
        scoping: scoping_of(scoping),
        root: pattern,
    };
    HostSide {
        made,
        asked,
        pattern,
    }
}

// 7 of either side, then 1 and 2 of the first.
fn first_refused(tables: &Tables<'_>, first: HostSide, second: HostSide) -> Result<(), GivenRefusal>
    ensures { ExampleFirst (contents tables.now) first second result }
{
    if !are_listed(second.asked) {
        return Err(GivenRefusal::LayoutBroken);
    }
    given(tables, first.made, first.asked)?;
    Ok(())
}

// Of a second side whose marks are refused: what the first side is refused for, then 2.
fn second_refused(tables: &Tables<'_>, first: ScopedPattern, values1: &[u32]) -> ExampleRefusal
    ensures { SecondRefusedIn (contents tables.now) first values1 result }
{
    match refused_side(tables, first, values1) {
        Err(refused) => refused,
        Ok(()) => ExampleRefusal::SideRefused(SideRefusal::TableRefused(TableRefusal::BreaksRules)),
    }
}

// `made` is what the conversion of the second side's marks answered.
fn example_given(
    tables: &Tables<'_>,
    first: ScopedPattern,
    values1: &[u32],
    made: Result<Scope, MarkOutside>,
    second: ScopedPattern,
    values2: &[u32],
    example_nodes: &mut [u32],
    example_children: &mut [u32],
) -> Result<Option<Example>, ExampleRefusal>
    ensures { let T = contents tables.now in
        MarkedIn T first values1 (conversion_of made) second values2 example_nodes example_children result }
{
    if let Ok(_) = made {
        return common_example(
            tables,
            first,
            values1,
            second,
            values2,
            example_nodes,
            example_children,
        );
    }
    clear(example_nodes);
    clear(example_children);
    Err(second_refused(tables, first, values1))
}

// Gives a value that both patterns match, or none. Its nodes go on from the tables', its child entries from their child list.
pub fn teluddru_common_example(
    tables: &Tables<'_>,
    marks1: &[u8],
    scheduler1: u32,
    scoping1: u32,
    pattern1: u32,
    values1: &[u32],
    marks2: &[u8],
    scheduler2: u32,
    scoping2: u32,
    pattern2: u32,
    values2: &[u32],
    example_nodes: &mut [u32],
    example_children: &mut [u32],
    answer: &mut [u32],
) -> u32
    ensures { let T = contents tables.now in
        let first = given_side marks1 scheduler1 scoping1 pattern1 values1 in
        let second = given_side marks2 scheduler2 scoping2 pattern2 values2 in
        ExampleCalledIn T first second example_nodes example_children answer result }
{
    let first = host_side(marks1, scheduler1, scoping1, pattern1);
    let second = host_side(marks2, scheduler2, scoping2, pattern2);
    if let Err(refused) = first_refused(tables, first, second) {
        clear(example_nodes);
        clear(example_children);
        return refuse(answer, refused);
    }
    let given = example_given(
        tables,
        first.pattern,
        values1,
        second.made,
        second.pattern,
        values2,
        example_nodes,
        example_children,
    );
    tell(answer, example_row(given))
}
