// A names report over names in pairs of words.
ghost use Rattle.std.specs.Prelude.{◌≤◌};
ghost use Rattle.report.specs.Report.{ReportedIn};
ghost use Rattle.teluddru.specs.code.Copying.{lent_words};

use crate::records::NameWords;
use report::ReportRefusal;
use scope::{Scope, ScopingMode};

pub(crate) fn report_words<'a>(
    nodes: &[u32],
    children: &[u32],
    numbers: &[u64],
    names: NameWords,
    strings: &'a [u8],
    text: &'a [u8],
    scope: Scope,
    scoping: ScopingMode,
    pattern: u32,
    list: &mut [u32],
) -> Result<(), ReportRefusal>
    requires { names.count ≤ 129 }
    ensures { ReportedIn list (lent_words nodes children numbers names strings text) scope scoping pattern result }
{
    let tables = names.among(nodes, children, numbers, strings, text);
    report::names_report(&tables, scope, scoping, pattern, list)
}
