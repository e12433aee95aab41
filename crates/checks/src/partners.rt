// Fields of two objects under equal literal keys.
ghost use Rattle.table.specs.Contents.{contents};
ghost use Rattle.base.specs.Lists.{all_from};
ghost use Rattle.std.specs.Prelude.{◌≡◌, ◌≤◌};
ghost use Rattle.table.specs.Decode.{literal_at};
ghost use Rattle.checks.specs.code.Post.{WorkingSpace, patterns_of, FieldsAsks, PartnerAsks, PlaceIs, SlotAsks, SlotIs, is_marked, Unmarked, MarkedAt, Marked, paired_at, paired_by};

use crate::Reading;
use planner::buffer::clear;
use planner::fields::field_at;
use planner::inner::fields::find_field;
use table::Key;
use table::reading::{child_at, count_of, extract_literal_key, first_of};
use table::tables::Tables;

// The place, in its order, of a pattern's field under a literal key equal to a value's; `literals` if there is none.
pub(crate) fn partner_place(
    tables: &Tables<'_>,
    pattern: u32,
    order: &[u8; 256],
    literals: usize,
    key: u32,
) -> usize
    requires { PartnerAsks (contents tables.now) pattern order.now literals key }
    ensures { let T = contents tables.now in PlaceIs (patterns_of T pattern).literals (literal_at T key) result }
{
    let Key::Literal(literal) = extract_literal_key(tables.nodes, key) else {
        return literals;
    };
    let first = first_of(tables.nodes, pattern) as usize;
    find_field(tables, first, order, literals, literal).unwrap_or(literals)
}

// The pattern's node at a place of its order.
pub(crate) fn pattern_at(
    tables: &Tables<'_>,
    pattern: u32,
    order: &[u8; 256],
    literals: usize,
    place: usize,
) -> u32
    requires { SlotAsks (contents tables.now) pattern order.now literals place }
    ensures { let T = contents tables.now in SlotIs T (patterns_of T pattern).literals place result }
{
    let first = first_of(tables.nodes, pattern) as usize;
    child_at(tables.children, first + field_at(order, place) * 2 + 1)
}

fn mark(marks: &mut [u32], place: usize)
    ensures { MarkedAt place marks.old marks.new }
{
    if place < marks.len() {
        marks[place] = 1;
    }
}

// Marks the places of the pattern's fields that have a partner.
fn mark_partners(
    tables: &Tables<'_>,
    pattern: u32,
    value: u32,
    order: &[u8; 256],
    literals: usize,
    total: usize,
    marks: &mut [u32; 256],
)
    requires { FieldsAsks (contents tables.now) pattern value order.now literals total × Unmarked marks.old }
    ensures { Marked (contents tables.now) pattern value literals marks.new }
{
    let first = first_of(tables.nodes, value) as usize;
    let count = count_of(tables.nodes, value) as usize;
    for i in 0..count {
        let key = child_at(tables.children, first + i * 2);
        let place = partner_place(tables, pattern, order, literals, key);
        mark(marks, place);
    }
}

fn all_marked(marks: &[u32; 256], size: usize) -> bool
    requires { size ≤ 256 }
    ensures { result ≡ all_from (is_marked marks.now) 0 size }
{
    for q in 0..size {
        if marks[q] == 0 {
            return false;
        }
    }
    true
}

// Has each of the pattern's literal fields a partner?
fn all_paired(
    tables: &Tables<'_>,
    pattern: u32,
    value: u32,
    order: &[u8; 256],
    literals: usize,
    total: usize,
    marks: &mut [u32; 256],
) -> bool
    requires { FieldsAsks (contents tables.now) pattern value order.now literals total }
    ensures { let T = contents tables.now in (result ≡ paired_at T pattern value) × WorkingSpace marks }
{
    clear(marks);
    mark_partners(tables, pattern, value, order, literals, total, marks);
    all_marked(marks, literals)
}

// The same, asked in the careful reading alone.
pub(crate) fn each_paired(
    tables: &Tables<'_>,
    pattern: u32,
    value: u32,
    order: &[u8; 256],
    literals: usize,
    total: usize,
    reading: Reading,
    marks: &mut [u32; 256],
) -> bool
    requires { FieldsAsks (contents tables.now) pattern value order.now literals total }
    ensures { let T = contents tables.now in (result ≡ paired_by reading T pattern value) × WorkingSpace marks }
{
    match reading {
        Reading::Present => true,
        Reading::Careful => all_paired(tables, pattern, value, order, literals, total, marks),
    }
}
