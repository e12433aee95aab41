// The ranges of nodes: are they allowed, and the classes that they start from.
ghost use Rattle.table.specs.Contents.{contents};
ghost use Rattle.std.specs.Prelude.{◌≡◌, cond, eqb};
ghost use Rattle.base.specs.Lists.{all_from};
ghost use Rattle.tolerance.specs.Operations.{range_ok};
ghost use Rattle.tolerance.specs.code.Post.{number_at, range_at, RangesAsks, ListedAsks, NamesAsks, numbers_ok, numbers_ok_in};

use crate::number::{Number, Range};
use table::node_kind;
use table::reading::{child_at, count_of, first_of, kind_of};
use table::tables::Tables;

// A node's number in a list: two words a node.
fn number_at(words: &[u64], node: u32) -> Number
    ensures { result ≡ number_at words.now node }
{
    if node == 0 {
        return Number { sign: 0, size: 0 };
    }
    Number::read(words, node - 1)
}

// The lists of the lowest and the highest numbers.
#[derive(Clone, Copy)]
pub(crate) struct Ranges<'a> {
    pub lowest: &'a [u64],
    pub highest: &'a [u64],
}

impl Ranges<'_> {
    pub(crate) fn at(&self, node: u32) -> Range
        ensures { result ≡ range_at self.now.lowest.now self.now.highest.now node }
    {
        Range {
            low: number_at(self.lowest, node),
            high: number_at(self.highest, node),
        }
    }

    // Are a node's ends allowed numbers, the lowest not above the highest?
    pub(crate) fn is_ok(&self, node: u32) -> bool
        ensures { result ≡ range_ok self.now.lowest.now self.now.highest.now node }
    {
        let range = self.at(node);
        range.low.is_allowed() && range.high.is_allowed() && range.is_open()
    }
}

// From one child value to the next: an object's keys stand between.
fn step_of(kind: u32) -> usize
    ensures { result ≡ cond (eqb kind 7) 1 2 }
{
    if kind == node_kind::ARRAY {
        return 1;
    }
    2
}

// Has each number of a value, object keys aside, such a range?
pub(crate) fn numbers_ok(tables: &Tables<'_>, ranges: &Ranges<'_>, node: u32) -> bool
    requires { RangesAsks (contents tables.now) node }
    ensures { result ≡ numbers_ok (contents tables.now) ranges.now.lowest.now ranges.now.highest.now node }
{
    let kind = kind_of(tables.nodes, node);
    if kind == node_kind::NUMBER {
        return ranges.is_ok(node);
    }
    if kind <= node_kind::LAST_LITERAL {
        return true;
    }
    let step = step_of(kind);
    let first = first_of(tables.nodes, node) as usize + step - 1;
    let count = count_of(tables.nodes, node) as usize;
    for i in 0..count {
        let child = child_at(tables.children, first + i * step);
        if !numbers_ok(tables, ranges, child) {
            return false;
        }
    }
    true
}

// A name's value, if there is one.
fn listed_ok(tables: &Tables<'_>, ranges: &Ranges<'_>, list: &[u32; 128], i: usize) -> bool
    requires { ListedAsks (contents tables.now) list.now i }
    ensures { result ≡ numbers_ok_in (contents tables.now) ranges.now.lowest.now ranges.now.highest.now list.now i }
{
    let node = list[i];
    if node == 0 {
        return true;
    }
    numbers_ok(tables, ranges, node)
}

// Has each number of the names' values such a range?
pub(crate) fn names_ok(tables: &Tables<'_>, ranges: &Ranges<'_>, list: &[u32; 128]) -> bool
    requires { NamesAsks (contents tables.now) list.now }
    ensures { let T = contents tables.now in result ≡ all_from (numbers_ok_in T ranges.now.lowest.now ranges.now.highest.now list.now) 0 128 }
{
    for i in 0..128 {
        if !listed_ok(tables, ranges, list, i) {
            return false;
        }
    }
    true
}
