// The values of names by their numbers: at the start, and after a match.
ghost use Rattle.table.specs.Contents.{contents};
ghost use Rattle.std.specs.Prelude.{◌/◌, ◌≡◌, [], cond, eqb, length};
ghost use Rattle.scope.specs.Scope.{is_unbound, known};
ghost use Rattle.table.specs.Tables.{tables};
ghost use Rattle.table.specs.Decode.{expr, is_wildcard};
ghost use Rattle.planner.specs.code.Post.{NameNumber};
ghost use Rattle.run.specs.Operations.{known_listed};
ghost use Rattle.run.specs.code.NamesPost.{ListAsks, StartOf, NamesSet, has_value, all_have_values, KnownAsks};

use report::inner::names_met;
use scope::{Scope, ScopingMode};
use table::NameClass;
use table::reading::name_class;
use table::tables::Tables;

pub fn is_wildcard(names: &[u32], text: &[u8], name: u32) -> bool
    ensures { result ≡ is_wildcard (tables [] [] [] names.now [] text.now) name }
{
    let class = name_class(names, text, name);
    match class {
        NameClass::Underscore => true,
        NameClass::InputOrData => false,
        NameClass::Ordinary => false,
    }
}

fn is_unbound(scope: Scope, scoping: ScopingMode, name: u32) -> bool
    requires { NameNumber name }
    ensures { result ≡ is_unbound scope scoping name }
{
    scope.is_var_unbound(name, scoping).unwrap_or(false)
}

// A known name has its listed value at the start, another name none.
fn start_value(scope: Scope, scoping: ScopingMode, name: u32, listed: u32) -> u32
    requires { NameNumber name }
    ensures { result ≡ cond (is_unbound scope scoping name) 0 listed }
{
    if is_unbound(scope, scoping, name) {
        return 0;
    }
    listed
}

pub fn start_list(names: &[u32], scope: Scope, scoping: ScopingMode, values: &[u32]) -> [u32; 128]
    requires { ListAsks names.now values.now }
    ensures { StartOf (length names.now / 2) scope scoping values.now result }
{
    let mut list = [0u32; 128];
    let count = names.len() / 2;
    for i in 0..count {
        list[i] = start_value(scope, scoping, (i + 1) as u32, values[i]);
    }
    list
}

fn new_value(binder: u32, old: u32, new: u32) -> u32
    ensures { result ≡ cond (eqb binder 0) old new }
{
    if binder == 0 {
        return old;
    }
    new
}

// The names with a binder are set.
pub(crate) fn set_names(names: &[u32], binders: &[u32; 128], list: &[u32; 128], values: &mut [u32])
    requires { ListAsks names.now values.old }
    ensures { NamesSet (length names.now / 2) binders.now list.now values.old values.new }
{
    let count = names.len() / 2;
    for i in 0..count {
        let old = values[i];
        values[i] = new_value(binders[i], old, list[i]);
    }
}

// A name that is met has a value unless it is unbound.
fn has_value(scope: Scope, scoping: ScopingMode, name: u32, met: u32, listed: u32) -> bool
    requires { NameNumber name }
    ensures { result ≡ has_value (is_unbound scope scoping) name met listed }
{
    if met == 0 {
        return true;
    }
    if listed == 0 {
        return is_unbound(scope, scoping, name);
    }
    true
}

fn all_have_values(
    names: &[u32],
    scope: Scope,
    scoping: ScopingMode,
    met: &[u32; 128],
    values: &[u32],
) -> bool
    requires { ListAsks names.now values.now }
    ensures { result ≡ all_have_values (length names.now / 2) (is_unbound scope scoping) met.now values.now }
{
    let count = names.len() / 2;
    for i in 0..count {
        if !has_value(scope, scoping, (i + 1) as u32, met[i], values[i]) {
            return false;
        }
    }
    true
}

// Has each known name of the pattern a value?
pub fn known_listed(
    tables: &Tables<'_>,
    scope: Scope,
    scoping: ScopingMode,
    pattern: u32,
    values: &[u32],
) -> bool
    requires { KnownAsks (contents tables.now) scope pattern values.now }
    ensures { let T = contents tables.now in result ≡ known_listed T (known scope scoping) (expr T pattern) values.now }
{
    let met = names_met(tables, pattern);
    all_have_values(tables.names, scope, scoping, &met, values)
}
