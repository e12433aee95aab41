// The library's calls for a caller in Rattle: names are a lent table of records.
#![tactic(auto)]

pub mod over_records;
mod records;
mod words;

ghost use Rattle.body.specs.Body.{body_outcome, BodyAnsweredIn};
ghost use Rattle.common_example.specs.Common.{CommonIn};
ghost use Rattle.name_table.specs.Adding.{add_outcome};
ghost use Rattle.planner.specs.Operations.{AnsweredIn};
ghost use Rattle.report.specs.Report.{ReportedIn};
ghost use Rattle.run.specs.Operations.{RanIn};
ghost use Rattle.table.specs.Tables.{tables};
ghost use Rattle.teluddru.specs.Records.{name_words, lent_records};
ghost use Rattle.teluddru.specs.Adding.{NameAddedTo};
ghost use Rattle.operation.specs.Version.{version_outcome};
ghost use Rattle.tolerance.specs.Operations.{JudgedIn};

use crate::records::{copy_names, name_of, place_of, put_name};
use body::BodyPlanned;
use common_example::example::{Example, ExampleRefusal};
use common_example::sides::ScopedPattern;
use name_table::{NameAnswer, NameRefusal};
use operation::Operation;
use planner::{Plan, PlanRefusal};
use report::ReportRefusal;
use run::{RunAnswer, RunRefusal};
use scope::{Scope, ScopingMode};
use tolerance::{ToleranceAnswer, ToleranceRefusal};

// A range of the rule text.
#[derive(Clone, Copy)]
pub struct Name {
    pub start: u32,
    pub length: u32,
}

// The lent tables of a rule, with the names as records. The others are as in `Tables`.
#[derive(Clone, Copy)]
pub struct Rule<'a> {
    pub nodes: &'a [u32],
    pub children: &'a [u32],
    pub numbers: &'a [u64],
    pub names: &'a [Name],
    pub strings: &'a [u8],
    pub text: &'a [u8],
}

// The planning call, for a version of Rego: any but 1 is version 0.
pub fn plan(
    rule: &Rule<'_>,
    scope: Scope,
    operation: Operation,
    version: u32,
    plan: &mut [u32],
) -> Result<Plan, PlanRefusal>
    ensures { AnsweredIn plan (version_outcome (lent_records rule.now) scope version operation) result }
{
    over_records::plan(
        rule.nodes,
        rule.children,
        rule.numbers,
        rule.names,
        rule.strings,
        rule.text,
        scope,
        operation,
        version,
        plan,
    )
}

// Adds the name that stands at a range of the text. The first `used` records hold names, the others are free.
pub fn add_name<'a>(
    nodes: &[u32],
    children: &[u32],
    numbers: &[u64],
    names: &mut [Name],
    strings: &'a [u8],
    text: &'a [u8],
    used: u32,
    start: u32,
    length: u32,
) -> Result<NameAnswer, NameRefusal>
    ensures { let T = tables nodes.now children.now numbers.now (name_words names.old) strings.now text.now in
        NameAddedTo names (add_outcome T used start length) used start length result }
{
    let mut copied = copy_names(names);
    let end = copied.count * 2;
    let words = &mut copied.words[..];
    let answer = name_table::add_name(
        nodes,
        children,
        numbers,
        &mut words[..end],
        strings,
        text,
        used,
        start,
        length,
    );
    let place = place_of(answer, used);
    let name = name_of(start, length);
    put_name(names, place, name);
    answer
}

// Plans a body's lines in turn. The plan buffer then holds the last line's plan; a refusal leaves it all zeros and returns the scope as given.
pub fn plan_body(rule: &Rule<'_>, scope: Scope, lines: &[u32], plan: &mut [u32]) -> BodyPlanned
    ensures { BodyAnsweredIn plan scope (body_outcome (lent_records rule.now) scope lines.now plan.old) result }
{
    over_records::plan_body(
        rule.nodes,
        rule.children,
        rule.numbers,
        rule.names,
        rule.strings,
        rule.text,
        scope,
        lines,
        plan,
    )
}

// Plans the pattern into the buffer and carries the plan out on the value. `values` has for each name number the node of its value, or 0.
pub fn run(
    rule: &Rule<'_>,
    scope: Scope,
    scoping: ScopingMode,
    pattern: u32,
    value: u32,
    values: &mut [u32],
    plan: &mut [u32],
) -> Result<RunAnswer, RunRefusal>
    ensures { RanIn values plan (lent_records rule.now) scope scoping pattern value result }
{
    over_records::run(
        rule.nodes,
        rule.children,
        rule.numbers,
        rule.names,
        rule.strings,
        rule.text,
        scope,
        scoping,
        pattern,
        value,
        values,
        plan,
    )
}

// Runs the pattern on the value for all choices of a number from the lowest to the highest of each node, two words a node in each list.
pub fn run_with_tolerance(
    rule: &Rule<'_>,
    scope: Scope,
    scoping: ScopingMode,
    pattern: u32,
    value: u32,
    values: &mut [u32],
    lowest: &[u64],
    highest: &[u64],
    plan: &mut [u32],
) -> Result<ToleranceAnswer, ToleranceRefusal>
    ensures { JudgedIn values lowest highest plan (lent_records rule.now) scope scoping pattern value result }
{
    over_records::run_with_tolerance(
        rule.nodes,
        rule.children,
        rule.numbers,
        rule.names,
        rule.strings,
        rule.text,
        scope,
        scoping,
        pattern,
        value,
        values,
        lowest,
        highest,
        plan,
    )
}

// A value that both patterns match, or none; each side is a pattern in its scope and the values of its own names. The example's nodes go on from the tables' and its child entries from their child list.
pub fn common_example(
    rule: &Rule<'_>,
    first: ScopedPattern,
    values1: &[u32],
    second: ScopedPattern,
    values2: &[u32],
    example_nodes: &mut [u32],
    example_children: &mut [u32],
) -> Result<Option<Example>, ExampleRefusal>
    ensures { let T = lent_records rule.now in
        CommonIn T first values1 second values2 example_nodes example_children result }
{
    over_records::common_example(
        rule.nodes,
        rule.children,
        rule.numbers,
        rule.names,
        rule.strings,
        rule.text,
        first,
        values1,
        second,
        values2,
        example_nodes,
        example_children,
    )
}

// For each name 1 bound in the pattern's plan, 2 met or a computed key but not bound there, else 0.
pub fn names_report(
    rule: &Rule<'_>,
    scope: Scope,
    scoping: ScopingMode,
    pattern: u32,
    list: &mut [u32],
) -> Result<(), ReportRefusal>
    ensures { ReportedIn list (lent_records rule.now) scope scoping pattern result }
{
    over_records::names_report(
        rule.nodes,
        rule.children,
        rule.numbers,
        rule.names,
        rule.strings,
        rule.text,
        scope,
        scoping,
        pattern,
        list,
    )
}
