// Which rule of the tables is broken, and where.
#![tactic(auto)]

ghost use Rattle.table.specs.Contents.{contents};
ghost use Rattle.table.specs.Check.{table_refused};
ghost use Rattle.std.specs.Prelude.{◌≡◌};
ghost use Rattle.table_fault.specs.Fault.{FaultAnswered, broken_place};
ghost use Rattle.table_fault.specs.code.Asking.{numbered, Reached, refusal_by};

use kept::is_kept;
use places::{count_places, first_place};
use table::TableRefusal;
use table::tables::Tables;

mod kept;
mod node;
mod places;
mod repeats;
pub mod rule;

// `rule` is one of module `rule`; the place is that of a node, child entry, number or name, from 1, or 0 for the tables as a whole.
#[derive(Clone, Copy)]
pub struct BrokenRule {
    pub refused: TableRefusal,
    pub rule: u32,
    pub place: u32,
}

// What the check answers where a rule is broken.
fn refusal_of(rule: u32) -> TableRefusal
    ensures { table_refused result ≡ refusal_by rule }
{
    if rule <= rule::MOST_TEXT_BYTES {
        return TableRefusal::OverLimit;
    }
    if rule == rule::DEPTH {
        return TableRefusal::TooDeep;
    }
    if rule == rule::EQUAL_NAMES {
        return TableRefusal::EqualNames;
    }
    TableRefusal::BreaksRules
}

// The first place at which a rule is broken. All rules before it are kept.
fn first_broken(tables: &Tables<'_>, marks: &[u8], rule: u32) -> Option<u32>
    requires { Reached (contents tables.now) marks.now rule }
    ensures { result ≡ broken_place (numbered (contents tables.now) marks.now rule) }
{
    let first = first_place(rule);
    let count = count_places(
        tables.nodes,
        tables.children,
        tables.numbers,
        tables.names,
        rule,
    );
    let end = first + count as u32;
    for place in first..end {
        if !is_kept(tables, marks, rule, place) {
            return Some(place);
        }
    }
    None
}

// The first rule that is broken, at its first place; the marks as bytes, 0 for those that are not lent.
pub fn table_fault(tables: &Tables<'_>, marks: &[u8]) -> Option<BrokenRule>
    ensures { FaultAnswered (contents tables.now) marks.now result }
{
    for rule in 1..=rule::LAST {
        if let Some(place) = first_broken(tables, marks, rule) {
            return Some(BrokenRule {
                refused: refusal_of(rule),
                rule,
                place,
            });
        }
    }
    None
}
