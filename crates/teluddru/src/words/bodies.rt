// A body's planning call over names in pairs of words.
ghost use Rattle.std.specs.Prelude.{◌≤◌};
ghost use Rattle.body.specs.Body.{body_outcome, BodyAnsweredIn};
ghost use Rattle.teluddru.specs.code.Copying.{lent_words};

use crate::records::NameWords;
use body::BodyPlanned;
use scope::Scope;

pub(crate) fn body_words<'a>(
    nodes: &[u32],
    children: &[u32],
    numbers: &[u64],
    names: NameWords,
    strings: &'a [u8],
    text: &'a [u8],
    scope: Scope,
    lines: &[u32],
    plan: &mut [u32],
) -> BodyPlanned
    requires { names.count ≤ 129 }
    ensures { BodyAnsweredIn plan scope (body_outcome (lent_words nodes children numbers names strings text) scope lines.now plan.old) result }
{
    let tables = names.among(nodes, children, numbers, strings, text);
    body::plan_body(&tables, scope, lines, plan)
}
