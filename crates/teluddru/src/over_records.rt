// The calls over a rule whose tables are slices of their own, the names records: each copies the names into words and hands these on by value.
ghost use Rattle.body.specs.Body.{body_outcome, BodyAnsweredIn};
ghost use Rattle.common_example.specs.Common.{CommonIn};
ghost use Rattle.planner.specs.Operations.{AnsweredIn};
ghost use Rattle.report.specs.Report.{ReportedIn};
ghost use Rattle.run.specs.Operations.{RanIn};
ghost use Rattle.teluddru.specs.Records.{lent_slices};
ghost use Rattle.operation.specs.Version.{version_outcome};
ghost use Rattle.tolerance.specs.Operations.{JudgedIn};

use crate::Name;
use crate::records::copy_names;
use crate::words::bodies::body_words;
use crate::words::examples::example_words;
use crate::words::plans::plan_words;
use crate::words::reports::report_words;
use crate::words::runs::run_words;
use crate::words::tolerances::tolerance_words;
use body::BodyPlanned;
use common_example::example::{Example, ExampleRefusal};
use common_example::sides::ScopedPattern;
use operation::Operation;
use planner::{Plan, PlanRefusal};
use report::ReportRefusal;
use run::{RunAnswer, RunRefusal};
use scope::{Scope, ScopingMode};
use tolerance::{ToleranceAnswer, ToleranceRefusal};

pub fn plan<'a>(
    nodes: &[u32],
    children: &[u32],
    numbers: &[u64],
    names: &[Name],
    strings: &'a [u8],
    text: &'a [u8],
    scope: Scope,
    operation: Operation,
    version: u32,
    plan: &mut [u32],
) -> Result<Plan, PlanRefusal>
    ensures { AnsweredIn plan (version_outcome (lent_slices nodes children numbers names strings text) scope version operation) result }
{
    plan_words(
        nodes,
        children,
        numbers,
        copy_names(names),
        strings,
        text,
        scope,
        operation,
        version,
        plan,
    )
}

pub fn plan_body<'a>(
    nodes: &[u32],
    children: &[u32],
    numbers: &[u64],
    names: &[Name],
    strings: &'a [u8],
    text: &'a [u8],
    scope: Scope,
    lines: &[u32],
    plan: &mut [u32],
) -> BodyPlanned
    ensures { BodyAnsweredIn plan scope (body_outcome (lent_slices nodes children numbers names strings text) scope lines.now plan.old) result }
{
    body_words(
        nodes,
        children,
        numbers,
        copy_names(names),
        strings,
        text,
        scope,
        lines,
        plan,
    )
}

pub fn run<'a>(
    nodes: &[u32],
    children: &[u32],
    numbers: &[u64],
    names: &[Name],
    strings: &'a [u8],
    text: &'a [u8],
    scope: Scope,
    scoping: ScopingMode,
    pattern: u32,
    value: u32,
    values: &mut [u32],
    plan: &mut [u32],
) -> Result<RunAnswer, RunRefusal>
    ensures { RanIn values plan (lent_slices nodes children numbers names strings text) scope scoping pattern value result }
{
    run_words(
        nodes,
        children,
        numbers,
        copy_names(names),
        strings,
        text,
        scope,
        scoping,
        pattern,
        value,
        values,
        plan,
    )
}

pub fn run_with_tolerance<'a>(
    nodes: &[u32],
    children: &[u32],
    numbers: &[u64],
    names: &[Name],
    strings: &'a [u8],
    text: &'a [u8],
    scope: Scope,
    scoping: ScopingMode,
    pattern: u32,
    value: u32,
    values: &mut [u32],
    lowest: &[u64],
    highest: &[u64],
    plan: &mut [u32],
) -> Result<ToleranceAnswer, ToleranceRefusal>
    ensures { JudgedIn values lowest highest plan (lent_slices nodes children numbers names strings text) scope scoping pattern value result }
{
    tolerance_words(
        nodes,
        children,
        numbers,
        copy_names(names),
        strings,
        text,
        scope,
        scoping,
        pattern,
        value,
        values,
        lowest,
        highest,
        plan,
    )
}

pub fn common_example<'a>(
    nodes: &[u32],
    children: &[u32],
    numbers: &[u64],
    names: &[Name],
    strings: &'a [u8],
    text: &'a [u8],
    first: ScopedPattern,
    values1: &[u32],
    second: ScopedPattern,
    values2: &[u32],
    example_nodes: &mut [u32],
    example_children: &mut [u32],
) -> Result<Option<Example>, ExampleRefusal>
    ensures { let T = lent_slices nodes children numbers names strings text in
        CommonIn T first values1 second values2 example_nodes example_children result }
{
    example_words(
        nodes,
        children,
        numbers,
        copy_names(names),
        strings,
        text,
        first,
        values1,
        second,
        values2,
        example_nodes,
        example_children,
    )
}

pub fn names_report<'a>(
    nodes: &[u32],
    children: &[u32],
    numbers: &[u64],
    names: &[Name],
    strings: &'a [u8],
    text: &'a [u8],
    scope: Scope,
    scoping: ScopingMode,
    pattern: u32,
    list: &mut [u32],
) -> Result<(), ReportRefusal>
    ensures { ReportedIn list (lent_slices nodes children numbers names strings text) scope scoping pattern result }
{
    report_words(
        nodes,
        children,
        numbers,
        copy_names(names),
        strings,
        text,
        scope,
        scoping,
        pattern,
        list,
    )
}
