// What a run turns back before it plans, in its order.
ghost use Rattle.table.specs.Contents.{contents};
ghost use Rattle.run.specs.code.Post.{CheckedAsks, CheckToldIn};

use crate::RunRefusal;
use crate::inner::checks::{all_values, is_simple};
use crate::inner::names::known_listed;
use scope::{Scope, ScopingMode};
use table::check;
use table::reading::is_node;
use table::tables::Tables;

// Of a good table, with roots in it and a list that is long enough.
fn check_inside(
    tables: &Tables<'_>,
    scope: Scope,
    scoping: ScopingMode,
    pattern: u32,
    value: u32,
    values: &[u32],
) -> Result<(), RunRefusal>
    requires { CheckedAsks (contents tables.now) scope pattern value values.now }
    ensures { CheckToldIn values (contents tables.now) scope scoping pattern value result }
{
    if !is_simple(tables, pattern) {
        return Err(RunRefusal::PatternNotSimple);
    }
    if !all_values(tables, value, values) {
        return Err(RunRefusal::NotAValue);
    }
    if !known_listed(tables, scope, scoping, pattern, values) {
        return Err(RunRefusal::NameWithoutValue);
    }
    Ok(())
}

// 1 to 5, then 20 to 23.
pub fn check_run(
    tables: &Tables<'_>,
    scope: Scope,
    scoping: ScopingMode,
    pattern: u32,
    value: u32,
    values: &[u32],
) -> Result<(), RunRefusal>
    ensures { CheckToldIn values (contents tables.now) scope scoping pattern value result }
{
    check(tables, scope)?;
    if !is_node(tables.nodes, pattern) {
        return Err(RunRefusal::RootOutside);
    }
    if !is_node(tables.nodes, value) {
        return Err(RunRefusal::RootOutside);
    }
    if values.len() < tables.names.len() / 2 {
        return Err(RunRefusal::ListTooShort);
    }
    check_inside(tables, scope, scoping, pattern, value, values)
}
