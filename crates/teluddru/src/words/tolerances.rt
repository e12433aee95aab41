// A run with a tolerance over names in pairs of words.
ghost use Rattle.std.specs.Prelude.{◌≤◌};
ghost use Rattle.teluddru.specs.code.Copying.{lent_words};
ghost use Rattle.tolerance.specs.Operations.{JudgedIn};

use crate::records::NameWords;
use scope::{Scope, ScopingMode};
use tolerance::{ToleranceAnswer, ToleranceRefusal};

pub(crate) fn tolerance_words<'a>(
    nodes: &[u32],
    children: &[u32],
    numbers: &[u64],
    names: NameWords,
    strings: &'a [u8],
    text: &'a [u8],
    scope: Scope,
    scoping: ScopingMode,
    pattern: u32,
    value: u32,
    values: &mut [u32],
    lowest: &[u64],
    highest: &[u64],
    plan: &mut [u32],
) -> Result<ToleranceAnswer, ToleranceRefusal>
    requires { names.count ≤ 129 }
    ensures { JudgedIn values lowest highest plan (lent_words nodes children numbers names strings text) scope scoping pattern value result }
{
    let tables = names.among(nodes, children, numbers, strings, text);
    tolerance::run_with_tolerance(
        &tables, scope, scoping, pattern, value, values, lowest, highest, plan,
    )
}
