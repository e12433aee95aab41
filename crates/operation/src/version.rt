// Version 1 of Rego reserves `input` and `data`.
ghost use Rattle.table.specs.Contents.{contents};
ghost use Rattle.std.specs.Prelude.{◌≡◌};
ghost use Rattle.table.specs.Tables.{name_bytes};
ghost use Rattle.table.specs.Names.{class_of};
ghost use Rattle.planner.specs.code.Post.{GoodRoot};
ghost use Rattle.operation.specs.Version.{reserved_in, first_reserved};
ghost use Rattle.operation.specs.code.Reserved.{reserved_state, reserved_states, ReservedAsks, refusing_name};

use crate::patterns::{patterns_of, roots_are_nodes};
use crate::{Operation, REGO_V1};
use planner::context::name_states;
use planner::inner::names::first_name;
use scope::{Scope, ScopingMode};
use table::reading::name_class;
use table::tables::Tables;
use table::{NameClass, check};

// The state of a name, 0 for one that is not reserved.
fn reserved_state(names: &[u32], text: &[u8], name: u32, state: u8) -> u8
    ensures { result ≡ reserved_state (class_of (name_bytes names.now text.now name)) state }
{
    let class = name_class(names, text, name);
    match class {
        NameClass::Underscore => state,
        NameClass::InputOrData => state,
        NameClass::Ordinary => 0,
    }
}

// 1 for a reserved name that is unbound, 2 for `_`, else 0.
fn reserved_states(names: &[u32], text: &[u8], scope: Scope, scoping: ScopingMode) -> [u8; 128]
    ensures { result ≡ reserved_states names.now text.now scope scoping }
{
    let states = name_states(names, text, scope, scoping);
    let mut reserved = [0u8; 128];
    for i in 0..128 {
        reserved[i] = reserved_state(names, text, (i + 1) as u32, states[i]);
    }
    reserved
}

// The node of the first reserved name that the pattern would plan, or 0.
fn reserved_in(tables: &Tables<'_>, scope: Scope, scoping: ScopingMode, root: u32) -> u32
    requires { GoodRoot (contents tables.now) root }
    ensures { result ≡ reserved_in (contents tables.now) scope scoping root }
{
    let reserved = reserved_states(tables.names, tables.text, scope, scoping);
    let sets = false;
    let keys = false;
    first_name(tables, &reserved, sets, keys, root)
}

// That of the first pattern that has one.
fn first_reserved(tables: &Tables<'_>, scope: Scope, operation: Operation) -> u32
    requires { ReservedAsks (contents tables.now) operation }
    ensures { result ≡ first_reserved (contents tables.now) scope operation }
{
    let patterns = patterns_of(operation);
    let scoping = patterns.scoping;
    let node = reserved_in(tables, scope, scoping, patterns.first);
    if node != 0 {
        return node;
    }
    if !patterns.two {
        return 0;
    }
    reserved_in(tables, scope, scoping, patterns.second)
}

// The node of the name that refuses the operation, or 0: under version 1, where table check and roots don't refuse it.
pub(crate) fn refusing_name(
    tables: &Tables<'_>,
    scope: Scope,
    operation: Operation,
    version: u32,
) -> u32
    ensures { result ≡ refusing_name (contents tables.now) scope version operation }
{
    if version != REGO_V1 {
        return 0;
    }
    let checked = check(tables, scope);
    if let Err(refused) = checked {
        return 0;
    }
    if !roots_are_nodes(tables.nodes, operation) {
        return 0;
    }
    first_reserved(tables, scope, operation)
}
