// The first miss of a run over lent tables.
ghost use Rattle.table.specs.Contents.{contents};
ghost use Rattle.std.specs.Prelude.{◌≡◌};
ghost use Rattle.operation.specs.Rows.{row_line};
ghost use Rattle.first_miss.specs.Answer.{no_match_lem, miss_result_of};
ghost use Rattle.c_calls.specs.Misses.{why_number, miss_line, MissCalledIn};

use crate::answer::{refuse, run_refusal_row};
use crate::given::{given, pattern_numbers, scope_of};
use first_miss::{Miss, Why, first_miss};
use operation::inner::tell;
use operation::numbers::scoping_of;
use operation::row::{Row, row_from};
use run::RunRefusal;
use table::tables::Tables;

fn why_number(why: Why) -> u64
    ensures { result ≡ why_number why }
{
    match why {
        Why::NameDiffers => 1,
        Why::LiteralDiffers => 2,
        Why::NoArray => 3,
        Why::OtherLength => 4,
        Why::NoObject => 5,
        Why::KeyMissing => 6,
        Why::KeyTooMany => 7,
    }
}

fn missed_row(miss: Miss) -> Row
    ensures { row_line result ≡ miss_line (no_match_lem miss) }
{
    let why = miss.why;
    let number = why_number(why);
    row_from(100, miss.value as u64, miss.pattern as u64, number)
}

fn miss_row(answer: Result<Option<Miss>, RunRefusal>) -> Row
    ensures { row_line result ≡ miss_line (miss_result_of answer) }
{
    match answer {
        Ok(None) => row_from(0, 0, 0, 0),
        Ok(Some(miss)) => missed_row(miss),
        Err(refused) => run_refusal_row(refused),
    }
}

// Where the run of the pattern on the value misses first. `values` has for each name number the node of its value, or 0.
pub fn teluddru_first_miss(
    tables: &Tables<'_>,
    marks: &[u8],
    scheduler: u32,
    scoping: u32,
    pattern: u32,
    value: u32,
    values: &[u32],
    answer: &mut [u32],
) -> u32
    ensures { let T = contents tables.now in MissCalledIn values answer T marks scheduler scoping pattern value result }
{
    let asked = pattern_numbers(scheduler, scoping, pattern);
    let scope = match given(tables, scope_of(marks, scheduler), asked) {
        Ok(scope) => scope,
        Err(refused) => return refuse(answer, refused),
    };
    let missed = first_miss(tables, scope, scoping_of(scoping), pattern, value, values);
    tell(answer, miss_row(missed))
}
