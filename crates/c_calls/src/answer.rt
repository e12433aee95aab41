// An answer's four numbers.
ghost use Rattle.std.specs.Prelude.{◌≡◌};
ghost use Rattle.base.specs.Refusal.{refusal_line};
ghost use Rattle.run.specs.Answer.{result_of, run_refusal};
ghost use Rattle.report.specs.Answer.{report_line};
ghost use Rattle.tolerance.specs.Answer as Tolerance;
ghost use Rattle.c_calls.specs.Calls.{ran_line};
ghost use Rattle.c_calls.specs.Given.{given_refused};
ghost use Rattle.c_calls.specs.Tolerating.{tolerance_line};
ghost use Rattle.operation.specs.Rows.{row_line, Told};

use crate::given::GivenRefusal;
use operation::inner::tell;
use operation::row::{Row, row_from};
use report::ReportRefusal;
use run::{RunAnswer, RunRefusal};
use table::refusal_number;
use tolerance::{ToleranceAnswer, ToleranceRefusal};

pub(crate) fn run_refusal_row(refused: RunRefusal) -> Row
    ensures { row_line result ≡ refusal_line (run_refusal refused) }
{
    match refused {
        RunRefusal::TableRefused(table) => row_from(refusal_number(table) as u64, 0, 0, 0),
        RunRefusal::RootOutside => row_from(5, 0, 0, 0),
        RunRefusal::ListTooShort => row_from(20, 0, 0, 0),
        RunRefusal::PatternNotSimple => row_from(21, 0, 0, 0),
        RunRefusal::NotAValue => row_from(22, 0, 0, 0),
        RunRefusal::NameWithoutValue => row_from(23, 0, 0, 0),
        RunRefusal::PlanTooLarge { needed } => row_from(6, 0, needed as u64, 0),
    }
}

pub(crate) fn run_row(answer: Result<RunAnswer, RunRefusal>) -> Row
    ensures { row_line result ≡ ran_line (result_of answer) }
{
    match answer {
        Ok(RunAnswer::Match) => row_from(0, 0, 0, 0),
        Ok(RunAnswer::NoMatch) => row_from(100, 0, 0, 0),
        Err(refused) => run_refusal_row(refused),
    }
}

pub(crate) fn tolerance_row(answer: Result<ToleranceAnswer, ToleranceRefusal>) -> Row
    ensures { row_line result ≡ tolerance_line (Tolerance.tolerance_result_of answer) }
{
    match answer {
        Ok(ToleranceAnswer::Always) => row_from(0, 0, 0, 0),
        Ok(ToleranceAnswer::Sometimes) => row_from(101, 0, 0, 0),
        Ok(ToleranceAnswer::Never) => row_from(100, 0, 0, 0),
        Err(ToleranceRefusal::RangeWrong) => row_from(32, 0, 0, 0),
        Err(ToleranceRefusal::Run(refused)) => run_refusal_row(refused),
    }
}

pub(crate) fn report_row(answer: Result<(), ReportRefusal>) -> Row
    ensures { row_line result ≡ report_line answer }
{
    match answer {
        Ok(()) => row_from(0, 0, 0, 0),
        Err(ReportRefusal::TableRefused(table)) => row_from(refusal_number(table) as u64, 0, 0, 0),
        Err(ReportRefusal::RootOutside) => row_from(5, 0, 0, 0),
        Err(ReportRefusal::ListTooShort) => row_from(20, 0, 0, 0),
    }
}

pub(crate) fn refuse(answer: &mut [u32], refused: GivenRefusal) -> u32
    ensures { Told (refusal_line (given_refused refused)) answer.old answer.new result }
{
    tell(answer, refused.row())
}
