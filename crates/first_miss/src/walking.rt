// The run again, as a walk over the pattern: a name that has no value is set, one that has is compared. A part matches, or its first miss is told.
ghost use Rattle.table.specs.Contents.{contents};
ghost use Rattle.std.specs.Prelude.{◌≡◌};
ghost use Rattle.first_miss.specs.code.Post.{literal_walked, array_walked, ObjectTold, LiteralAsks, ObjectAsks, WalkAsks, NameAsks, ItemsAsks, FieldsAsks, walk_nodes, walk_listed, walk_under, CameIn};

use crate::keys::{missing_key, other_key};
use crate::{Miss, Why};
use run::inner::names::is_wildcard;
use table::node_kind;
use table::reading::{child_at, count_of, first_of, kind_of};
use table::tables::Tables;
use value::inner::equality::same_value;
use value::inner::fields::value_under;

// A literal of the pattern and a value.
fn walk_literal(tables: &Tables<'_>, a: u32, b: u32) -> Result<(), Miss>
    requires { LiteralAsks (contents tables.now) a b }
    ensures { result ≡ literal_walked (contents tables.now) a b }
{
    if same_value(tables, a, b) {
        return Ok(());
    }
    Err(Miss {
        why: Why::LiteralDiffers,
        value: b,
        pattern: a,
    })
}

// A name of the pattern and a value.
fn walk_name(tables: &Tables<'_>, list: &mut [u32; 128], a: u32, b: u32) -> Result<(), Miss>
    requires { NameAsks (contents tables.now) a b list.old }
    ensures { let T = contents tables.now in CameIn list T (walk_nodes T a b) result }
{
    let name = first_of(tables.nodes, a);
    if is_wildcard(tables.names, tables.text, name) {
        return Ok(());
    }
    let place = name as usize - 1;
    let held = list[place];
    if held == 0 {
        list[place] = b;
        return Ok(());
    }
    if same_value(tables, held, b) {
        return Ok(());
    }
    Err(Miss {
        why: Why::NameDiffers,
        value: b,
        pattern: a,
    })
}

// Is a value an array as long as the pattern's?
fn walk_array(nodes: &[u32], a: u32, b: u32) -> Result<(), Miss>
    ensures { result ≡ array_walked nodes.now a b }
{
    if kind_of(nodes, b) != node_kind::ARRAY {
        return Err(Miss {
            why: Why::NoArray,
            value: b,
            pattern: a,
        });
    }
    if count_of(nodes, b) != count_of(nodes, a) {
        return Err(Miss {
            why: Why::OtherLength,
            value: b,
            pattern: a,
        });
    }
    Ok(())
}

// Is a value an object of the pattern's keys?
fn walk_object(tables: &Tables<'_>, a: u32, b: u32) -> Result<(), Miss>
    requires { ObjectAsks (contents tables.now) a b }
    ensures { ObjectTold (contents tables.now) a b result }
{
    if kind_of(tables.nodes, b) != node_kind::OBJECT {
        return Err(Miss {
            why: Why::NoObject,
            value: b,
            pattern: a,
        });
    }
    if let Some(missing) = missing_key(tables, a, b) {
        return Err(Miss {
            why: Why::KeyMissing,
            value: b,
            pattern: missing,
        });
    }
    if let Some(other) = other_key(tables, b, a) {
        return Err(Miss {
            why: Why::KeyTooMany,
            value: other,
            pattern: a,
        });
    }
    Ok(())
}

#[cycle(walk_walk_fields_walk_items)]
pub(crate) fn walk(tables: &Tables<'_>, list: &mut [u32; 128], a: u32, b: u32) -> Result<(), Miss>
    requires { WalkAsks (contents tables.now) a b list.old }
    ensures { let T = contents tables.now in CameIn list T (walk_nodes T a b) result }
{
    let kind = kind_of(tables.nodes, a);
    if kind <= node_kind::LAST_LITERAL {
        return walk_literal(tables, a, b);
    }
    if kind == node_kind::NAME {
        return walk_name(tables, list, a, b);
    }
    if kind == node_kind::ARRAY {
        walk_array(tables.nodes, a, b)?;
        return walk_items(tables, list, a, b);
    }
    walk_object(tables, a, b)?;
    walk_fields(tables, list, a, b)
}

// The items of two arrays of one length.
#[cycle(walk_walk_fields_walk_items)]
fn walk_items(tables: &Tables<'_>, list: &mut [u32; 128], a: u32, b: u32) -> Result<(), Miss>
    requires { ItemsAsks (contents tables.now) a b list.old }
    ensures { let T = contents tables.now in CameIn list T (walk_listed T a b) result }
{
    let at = first_of(tables.nodes, a) as usize;
    let from = first_of(tables.nodes, b) as usize;
    let count = count_of(tables.nodes, a) as usize;
    for i in 0..count {
        let item = child_at(tables.children, at + i);
        let part = child_at(tables.children, from + i);
        walk(tables, list, item, part)?;
    }
    Ok(())
}

// The fields of two objects of the same keys, as the pattern has them.
#[cycle(walk_walk_fields_walk_items)]
fn walk_fields(tables: &Tables<'_>, list: &mut [u32; 128], a: u32, b: u32) -> Result<(), Miss>
    requires { FieldsAsks (contents tables.now) a b list.old }
    ensures { let T = contents tables.now in CameIn list T (walk_under T a b) result }
{
    let first = first_of(tables.nodes, a) as usize;
    let count = count_of(tables.nodes, a) as usize;
    for i in 0..count {
        let place = first + i * 2;
        let key = child_at(tables.children, place);
        let value = child_at(tables.children, place + 1);
        let part = value_under(tables, b, i, key).unwrap();
        walk(tables, list, value, part)?;
    }
    Ok(())
}
