// The checks of a run, to 23, of one side: a pattern with the scope and the values of its own names.
ghost use Rattle.table.specs.Contents.{contents};
ghost use Rattle.std.specs.Prelude.{◌≡◌};
ghost use Rattle.run.specs.Operations.{values_listed};
ghost use Rattle.run.specs.code.ChecksPost.{AllAsks};
ghost use Rattle.run.specs.code.NamesPost.{KnownAsks};
ghost use Rattle.common_example.specs.Common.{pattern_side};
ghost use Rattle.common_example.specs.code.Sides.{ValuesAnswered, InsideAsks, InsideAnswered, RootAsks, RootAnswered, SideAnswered};

use run::inner::checks::{is_simple, values_listed};
use run::inner::names::known_listed;
use scope::{Scope, ScopingMode};
use table::reading::is_node;
use table::tables::Tables;
use table::{TableRefusal, check};
use value::inner::admitted::mark_nodes;

// A pattern's node, with the scope that its names are read in.
#[derive(Clone, Copy)]
pub struct ScopedPattern {
    pub scope: Scope,
    pub scoping: ScopingMode,
    pub root: u32,
}

#[derive(Clone, Copy)]
pub enum SideRefusal {
    TableRefused(TableRefusal),
    RootOutside,
    ListTooShort,
    PatternNotSimple,
    NotAValue,
    NameWithoutValue,
}

impl From<TableRefusal> for SideRefusal {
    ghost use Rattle.common_example.specs.declared.sides.SideRefusal.TheVariants.{TableRefused};

    ghost from_gives = { λ refused r. r ≡ TableRefused refused };

    fn from(refused: TableRefusal) -> SideRefusal {
        SideRefusal::TableRefused(refused)
    }
}

// Is every listed node a value?
fn all_listed(tables: &Tables<'_>, pattern: u32, values: &[u32]) -> bool
    requires { AllAsks (contents tables.now) pattern values.now }
    ensures { result ≡ values_listed (contents tables.now) values.now }
{
    let marks = mark_nodes(tables, false);
    values_listed(tables.nodes, tables.names, &marks, values)
}

// 22 and 23, of a simple pattern of a good table and a list that is long enough.
fn check_values(
    tables: &Tables<'_>,
    scope: Scope,
    scoping: ScopingMode,
    pattern: u32,
    values: &[u32],
) -> Result<(), SideRefusal>
    requires { KnownAsks (contents tables.now) scope pattern values.now }
    ensures { ValuesAnswered (contents tables.now) scope scoping pattern values.now result }
{
    if !all_listed(tables, pattern, values) {
        return Err(SideRefusal::NotAValue);
    }
    if !known_listed(tables, scope, scoping, pattern, values) {
        return Err(SideRefusal::NameWithoutValue);
    }
    Ok(())
}

// Of a good table, with the root in it and a list that is long enough.
fn check_inside(
    tables: &Tables<'_>,
    scope: Scope,
    scoping: ScopingMode,
    pattern: u32,
    values: &[u32],
) -> Result<(), SideRefusal>
    requires { InsideAsks (contents tables.now) scope pattern values.now }
    ensures { InsideAnswered (contents tables.now) scope scoping pattern values.now result }
{
    if !is_simple(tables, pattern) {
        return Err(SideRefusal::PatternNotSimple);
    }
    check_values(tables, scope, scoping, pattern, values)
}

// Of a table that passed the check.
fn check_root(
    tables: &Tables<'_>,
    scope: Scope,
    scoping: ScopingMode,
    pattern: u32,
    values: &[u32],
) -> Result<(), SideRefusal>
    requires { RootAsks (contents tables.now) scope }
    ensures { RootAnswered (contents tables.now) scope scoping pattern values.now result }
{
    if !is_node(tables.nodes, pattern) {
        return Err(SideRefusal::RootOutside);
    }
    if values.len() < tables.names.len() / 2 {
        return Err(SideRefusal::ListTooShort);
    }
    check_inside(tables, scope, scoping, pattern, values)
}

pub(crate) fn check_side(
    tables: &Tables<'_>,
    pattern: ScopedPattern,
    values: &[u32],
) -> Result<(), SideRefusal>
    ensures { SideAnswered (contents tables.now) (pattern_side pattern values.now) result }
{
    let scope = pattern.scope;
    let scoping = pattern.scoping;
    check(tables, scope)?;
    check_root(tables, scope, scoping, pattern.root, values)
}
