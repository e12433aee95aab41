// The classes of two places that must have one value, with all that this forces.
ghost use Rattle.std.specs.Prelude.{◌≡◌};
ghost use Rattle.base.specs.Lists.{tabulate};
ghost use Rattle.common_example.specs.code.Roots.{UnifyAsks, Unified};

use crate::classes::{close_classes, join_pair};
use crate::graph::{Graph, PLACES};

// Each place is a class of its own.
fn start_classes(classes: &mut [u32; PLACES])
    ensures { classes.new ≡ tabulate (λ i. i) 0 2052 }
{
    *classes = [0u32; PLACES];
    for place in 0u32..2052 {
        classes[place as usize] = place;
    }
}

// False where no value has all heads of a class.
pub(crate) fn unify_roots(graph: &Graph, classes: &mut [u32; PLACES], a: u32, b: u32) -> bool
    requires { UnifyAsks graph.now.heads graph.now.links a b }
    ensures { Unified graph.now.heads graph.now.links a b classes.new result }
{
    start_classes(classes);
    join_pair(graph, classes, a, b);
    close_classes(graph, classes)
}
