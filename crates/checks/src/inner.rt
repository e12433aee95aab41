// A pattern held against a literal expression (utils.rs).
ghost use Rattle.table.specs.Contents.{contents};
ghost use Rattle.std.specs.Prelude.{◌≡◌};
ghost use Rattle.table.specs.Decode.{expr};
ghost use Rattle.checks.specs.Structure.{structure};
ghost use Rattle.planner.specs.code.Post.{GoodPair};
ghost use Rattle.checks.specs.code.Post.{structure_at, items_structure, ItemsAsks, ObjectsAsks, WorkingSpaces, FieldsAsks, fields_structure, FieldAsks, OneMore};

use crate::joining::{FieldsSoFar, is_settled, join, no_field_yet, with_field};
use crate::partners::{each_paired, partner_place, pattern_at};
use crate::texts::compare_object_keys;
use crate::{LiteralStructureCheck, Reading};
use table::node_kind;
use table::reading::{child_at, count_of, first_of, kind_of};
use table::tables::Tables;

// A pattern against a value. The two arrays are for the objects' key nodes; all levels share them, which keeps the stack small.
#[cycle(check_field_check_fields_check_items_check_object_check_structure)]
fn check_structure(
    tables: &Tables<'_>,
    pattern: u32,
    value: u32,
    reading: Reading,
    keys: &mut [u32; 256],
    others: &mut [u32; 256],
) -> LiteralStructureCheck
    requires { GoodPair (contents tables.now) pattern value }
    ensures { let T = contents tables.now in (result ≡ structure_at reading T pattern value) × WorkingSpaces keys others }
{
    let kind = kind_of(tables.nodes, value);
    if kind_of(tables.nodes, pattern) != kind {
        return LiteralStructureCheck::Unknown;
    }
    if kind == node_kind::ARRAY {
        let expected = count_of(tables.nodes, pattern);
        let actual = count_of(tables.nodes, value);
        if actual != expected {
            return LiteralStructureCheck::ArrayMismatch {
                value,
                expected,
                actual,
            };
        }
        let at = first_of(tables.nodes, pattern) as usize;
        let place = first_of(tables.nodes, value) as usize;
        return check_items(
            tables,
            value,
            at,
            place,
            actual as usize,
            reading,
            keys,
            others,
        );
    }
    if kind == node_kind::OBJECT {
        return check_object(tables, pattern, value, reading, keys, others);
    }
    LiteralStructureCheck::Unknown
}

// Items of a pattern from child entry `at` on, and of a value from `place` on.
#[cycle(check_field_check_fields_check_items_check_object_check_structure)]
fn check_items(
    tables: &Tables<'_>,
    value: u32,
    at: usize,
    place: usize,
    left: usize,
    reading: Reading,
    keys: &mut [u32; 256],
    others: &mut [u32; 256],
) -> LiteralStructureCheck
    requires { ItemsAsks (contents tables.now) value at place left }
    ensures { (result ≡ items_structure reading (contents tables.now) place at left) × WorkingSpaces keys others }
{
    let mut so_far = LiteralStructureCheck::Match;
    for i in 0..left {
        let pattern = child_at(tables.children, at + i);
        let item = child_at(tables.children, place + i);
        let check = check_structure(tables, pattern, item, reading, keys, others);
        so_far = join(reading, so_far, check);
        if is_settled(reading, so_far) {
            return so_far;
        }
    }
    so_far
}

// Two objects: their literal keys' texts first.
#[cycle(check_field_check_fields_check_items_check_object_check_structure)]
fn check_object(
    tables: &Tables<'_>,
    pattern: u32,
    value: u32,
    reading: Reading,
    keys: &mut [u32; 256],
    others: &mut [u32; 256],
) -> LiteralStructureCheck
    requires { ObjectsAsks (contents tables.now) pattern value }
    ensures { let T = contents tables.now in (result ≡ structure_at reading T pattern value) × WorkingSpaces keys others }
{
    let mut order = [0u8; 256];
    let compared = compare_object_keys(tables, pattern, value, &mut order, keys, others);
    if compared.total == 0 {
        return LiteralStructureCheck::Match;
    }
    if compared.literals == 0 {
        return LiteralStructureCheck::Unknown;
    }
    if !compared.same {
        return LiteralStructureCheck::ObjectMismatch { value, pattern };
    }
    check_fields(
        tables,
        pattern,
        value,
        &order,
        compared.literals,
        compared.total,
        reading,
        keys,
        others,
    )
}

// The value's fields as written, each with the pattern's of an equal key. In the careful reading the mismatch at the pattern's first place counts.
#[cycle(check_field_check_fields_check_items_check_object_check_structure)]
fn check_fields(
    tables: &Tables<'_>,
    pattern: u32,
    value: u32,
    order: &[u8; 256],
    literals: usize,
    total: usize,
    reading: Reading,
    keys: &mut [u32; 256],
    others: &mut [u32; 256],
) -> LiteralStructureCheck
    requires { FieldsAsks (contents tables.now) pattern value order.now literals total }
    ensures { (result ≡ fields_structure reading (contents tables.now) pattern value) × WorkingSpaces keys others }
{
    let count = count_of(tables.nodes, value) as usize;
    let paired = each_paired(
        tables, pattern, value, order, literals, total, reading, keys,
    );
    let mut so_far = no_field_yet(paired, literals, total);
    for i in 0..count {
        so_far = check_field(
            tables, pattern, value, order, literals, i, reading, so_far, keys, others,
        );
        if so_far.end == 0 {
            return so_far.check;
        }
    }
    so_far.check
}

// A field whose partner's place no longer counts, or that has none, is passed over.
#[cycle(check_field_check_fields_check_items_check_object_check_structure)]
fn check_field(
    tables: &Tables<'_>,
    pattern: u32,
    value: u32,
    order: &[u8; 256],
    literals: usize,
    i: usize,
    reading: Reading,
    before: FieldsSoFar,
    keys: &mut [u32; 256],
    others: &mut [u32; 256],
) -> FieldsSoFar
    requires { FieldAsks (contents tables.now) pattern value order.now literals i before }
    ensures { OneMore reading (contents tables.now) pattern value literals i before result × WorkingSpaces keys others }
{
    let place = first_of(tables.nodes, value) as usize + i * 2;
    let key = child_at(tables.children, place);
    let met = partner_place(tables, pattern, order, literals, key);
    if before.end <= met {
        return before;
    }
    let other = pattern_at(tables, pattern, order, literals, met);
    let child = child_at(tables.children, place + 1);
    let check = check_structure(tables, other, child, reading, keys, others);
    with_field(reading, before, met, check)
}

// A pattern against a value.
pub fn check_literal_structure(
    tables: &Tables<'_>,
    pattern: u32,
    value: u32,
    reading: Reading,
) -> LiteralStructureCheck
    requires { GoodPair (contents tables.now) pattern value }
    ensures { let T = contents tables.now in result ≡ structure reading (expr T value) (expr T pattern) }
{
    let mut keys = [0u32; 256];
    let mut others = [0u32; 256];
    check_structure(tables, pattern, value, reading, &mut keys, &mut others)
}
