// Always, sometimes or never: a pattern met with a value, from the ranges of the value's numbers.
ghost use Rattle.table.specs.Contents.{contents};
ghost use Rattle.std.specs.Prelude.{◌≡◌};
ghost use Rattle.tolerance.specs.code.Post.{first_range, FirstRanges, DecideAsks, DecidedIn};

use crate::ToleranceAnswer;
use crate::classes::Classes;
use crate::meeting::meet;
use crate::number::Range;
use crate::ranges::Ranges;
use table::tables::Tables;

// A node's range in the lists, zero where it is none.
fn first_range(ranges: &Ranges<'_>, node: u32) -> Range
    ensures { result ≡ first_range ranges.now.lowest.now ranges.now.highest.now node }
{
    if ranges.is_ok(node) {
        return ranges.at(node);
    }
    Range::ZERO
}

// The ranges of 512 nodes, at the node's number. With `array::from_fn` and a closure that holds the lists the proof didn't close.
fn first_ranges(ranges: &Ranges<'_>) -> [Range; 513]
    ensures { FirstRanges ranges.now.lowest.now ranges.now.highest.now result }
{
    let mut first = [Range::ZERO; 513];
    for n in 0..513 {
        first[n] = first_range(ranges, n as u32);
    }
    first
}

// The list has the known names' values, and at a match those of all names.
pub(crate) fn decide(
    tables: &Tables<'_>,
    ranges: &Ranges<'_>,
    list: &mut [u32; 128],
    pattern: u32,
    value: u32,
) -> ToleranceAnswer
    requires { DecideAsks (contents tables.now) pattern value list.old }
    ensures { let T = contents tables.now in DecidedIn list T ranges.now.lowest.now ranges.now.highest.now pattern value result }
{
    let first = first_ranges(ranges);
    let mut classes = Classes::apart(&first);
    if !meet(tables, list, &mut classes, true, pattern, value) {
        return ToleranceAnswer::Never;
    }
    if classes.all_free(&first) {
        return ToleranceAnswer::Always;
    }
    ToleranceAnswer::Sometimes
}
