// A run over names in pairs of words.
ghost use Rattle.std.specs.Prelude.{◌≤◌};
ghost use Rattle.run.specs.Operations.{RanIn};
ghost use Rattle.teluddru.specs.code.Copying.{lent_words};

use crate::records::NameWords;
use run::{RunAnswer, RunRefusal};
use scope::{Scope, ScopingMode};

pub(crate) fn run_words<'a>(
    nodes: &[u32],
    children: &[u32],
    numbers: &[u64],
    names: NameWords,
    strings: &'a [u8],
    text: &'a [u8],
    scope: Scope,
    scoping: ScopingMode,
    pattern: u32,
    value: u32,
    values: &mut [u32],
    plan: &mut [u32],
) -> Result<RunAnswer, RunRefusal>
    requires { names.count ≤ 129 }
    ensures { RanIn values plan (lent_words nodes children numbers names strings text) scope scoping pattern value result }
{
    let tables = names.among(nodes, children, numbers, strings, text);
    run::run(&tables, scope, scoping, pattern, value, values, plan)
}
