// What the scope says of every name, asked once at the start of an operation (context.rs).
ghost use Rattle.std.specs.Prelude.{◌≡◌};
ghost use Rattle.scope.specs.Scope.{is_unbound};
ghost use Rattle.planner.specs.Names.{states_of, unbound_mark};
ghost use Rattle.planner.specs.code.Post.{NameNumber};
ghost use Rattle.planner.specs.code.Validation.{mark_if, flag_of, flags_of};

use scope::{Scope, ScopingMode};
use table::NameClass;
use table::reading::name_class;

// 1 where the scope calls the name unbound.
fn unbound_mark(scope: Scope, scoping: ScopingMode, name: u32) -> u8
    requires { NameNumber name }
    ensures { result ≡ unbound_mark (is_unbound scope scoping name) }
{
    u8::from(scope.is_var_unbound(name, scoping).unwrap_or(false))
}

// 1 for an unbound name; if `defined`, for one with no binder that is known.
fn name_mark(scope: Scope, scoping: ScopingMode, defined: bool, binder: u32, name: u32) -> u8
    requires { NameNumber name }
    ensures { result ≡ mark_if defined binder (is_unbound scope scoping name) }
{
    let unbound = unbound_mark(scope, scoping, name);
    if !defined {
        return unbound;
    }
    if binder != 0 {
        return 0;
    }
    if unbound == 1 {
        return 0;
    }
    1
}

// 2 `_`, 0 a name that the table does not have, any other by its mark; `input` and `data` are not defined.
fn name_state(
    names: &[u32],
    text: &[u8],
    scope: Scope,
    scoping: ScopingMode,
    defined: bool,
    binders: &[u32; 128],
    name: u32,
) -> u8
    requires { NameNumber name }
    ensures { result ≡ flag_of names.now text.now scope scoping defined binders.now name }
{
    if names.len() / 2 < name as usize {
        return 0;
    }
    let binder = binders[name as usize - 1];
    let class = name_class(names, text, name);
    match class {
        NameClass::Underscore => 2,
        NameClass::InputOrData => name_mark(scope, scoping, defined, 1, name),
        NameClass::Ordinary => name_mark(scope, scoping, defined, binder, name),
    }
}

// The flags of all names, by their numbers: 1 unbound, or `defined` already, given the binders of a plan.
pub(crate) fn name_flags(
    names: &[u32],
    text: &[u8],
    scope: Scope,
    scoping: ScopingMode,
    defined: bool,
    binders: &[u32; 128],
) -> [u8; 128]
    ensures { result ≡ flags_of names.now text.now scope scoping defined binders.now }
{
    let mut flags = [0u8; 128];
    for i in 0..128 {
        if names.len() / 2 <= i {
            return flags;
        }
        flags[i] = name_state(
            names,
            text,
            scope,
            scoping,
            defined,
            binders,
            (i + 1) as u32,
        );
    }
    flags
}

// The states of all names, by their numbers: 0 known or not in the table, 1 unbound, 2 `_`.
pub fn name_states(names: &[u32], text: &[u8], scope: Scope, scoping: ScopingMode) -> [u8; 128]
    ensures { result ≡ states_of names.now text.now scope scoping }
{
    let none = [0u32; 128];
    name_flags(names, text, scope, scoping, false, &none)
}
