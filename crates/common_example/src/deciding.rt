// Whether a class has a value, and whether there is space for it.
ghost use Rattle.common_example.specs.code.Deciding.{DeepAsks, DeepDecided, DecideAsks, DecidedIn};

use crate::graph::{Joined, PLACES};
use crate::levels::{settle, size_at};

// Three cases with no value beside them, so neither Option nor Result.
#[derive(Clone, Copy)]
pub(crate) enum Verdict {
    Fits,
    TooLarge,
    NoValue,
}

// Of a class with no value of 32 levels: a deeper one is too large.
fn decide_deep(joined: &Joined, sizes: &mut [u16; PLACES], place: u32) -> Verdict
    requires { DeepAsks joined.now.graph.heads joined.now.graph.links joined.now.classes place }
    ensures { DeepDecided joined.now.graph.heads joined.now.graph.links joined.now.classes place result }
{
    settle(joined, 2048, sizes);
    if size_at(sizes, place) == 0 {
        return Verdict::NoValue;
    }
    Verdict::TooLarge
}

// From the sizes of values of 32 levels, and the lengths of the two lists lent. Where the value fits, the sizes stay.
pub(crate) fn decide(
    joined: &Joined,
    sizes: &mut [u16; PLACES],
    place: u32,
    words: usize,
    entries: usize,
) -> Verdict
    requires { DecideAsks joined.now.graph.heads joined.now.graph.links joined.now.classes sizes.old place }
    ensures { DecidedIn joined.now.graph.heads joined.now.graph.links joined.now.classes sizes.old place words entries sizes.new result }
{
    let size = size_at(sizes, place);
    if size == 0 {
        return decide_deep(joined, sizes, place);
    }
    if 512 < size {
        return Verdict::TooLarge;
    }
    if words / 5 < size as usize {
        return Verdict::TooLarge;
    }
    if entries < size as usize - 1 {
        return Verdict::TooLarge;
    }
    Verdict::Fits
}
