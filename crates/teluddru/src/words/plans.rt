// A planning call over names in pairs of words.
ghost use Rattle.std.specs.Prelude.{◌≤◌};
ghost use Rattle.planner.specs.Operations.{AnsweredIn};
ghost use Rattle.teluddru.specs.code.Copying.{lent_words};
ghost use Rattle.operation.specs.Version.{version_outcome};

use crate::records::NameWords;
use operation::Operation;
use planner::{Plan, PlanRefusal};
use scope::Scope;

pub(crate) fn plan_words<'a>(
    nodes: &[u32],
    children: &[u32],
    numbers: &[u64],
    names: NameWords,
    strings: &'a [u8],
    text: &'a [u8],
    scope: Scope,
    operation: Operation,
    version: u32,
    plan: &mut [u32],
) -> Result<Plan, PlanRefusal>
    requires { names.count ≤ 129 }
    ensures { AnsweredIn plan (version_outcome (lent_words nodes children numbers names strings text) scope version operation) result }
{
    let tables = names.among(nodes, children, numbers, strings, text);
    operation::plan(&tables, scope, operation, version, plan)
}
