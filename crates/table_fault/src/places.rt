// The places of a rule.
ghost use Rattle.std.specs.Prelude.{◌≡◌, []};
ghost use Rattle.table.specs.Tables.{tables};
ghost use Rattle.table_fault.specs.code.Asking.{first_by, places_by};

use crate::rule;

// 0 for the tables as a whole; else places are numbered from 1.
pub(crate) fn first_place(rule: u32) -> u32
    ensures { result ≡ first_by rule }
{
    if rule::LAST_WHOLE < rule {
        return 1;
    }
    0
}

// How many there are.
pub(crate) fn count_places(
    nodes: &[u32],
    children: &[u32],
    numbers: &[u64],
    names: &[u32],
    rule: u32,
) -> usize
    ensures { result ≡ places_by (tables nodes.now children.now numbers.now names.now [] []) rule }
{
    if rule <= rule::LAST_WHOLE {
        return 1;
    }
    match rule {
        rule::NAME_RANGE => names.len() / 2,
        rule::NUMBER => numbers.len() / 2,
        rule::CHILD_NUMBER => children.len(),
        rule::CHILD_TWICE => children.len(),
        rule::MARK => 128,
        rule::EQUAL_NAMES => names.len() / 2,
        _ => nodes.len() / 5,
    }
}
