// The common example of two patterns, a value that both match: both sides checked, unified, and the value written.
#![tactic(auto)]

ghost use Rattle.table.specs.Contents.{contents};
ghost use Rattle.common_example.specs.Common.{pattern_side, CommonIn, SideCheckedIn};
ghost use Rattle.common_example.specs.code.Common.{SidesCheckedIn, WriteAsks, WrittenIn, GiveAsks, GivenIn, PassedAsks, PassedIn};

use example::{Example, ExampleRefusal, write_example};
use graph::node_places::node_place;
use graph::{Graph, HEAD_WORDS, Joined, LINK_WORDS, PLACES};
use planner::buffer::clear;
use run::inner::names::start_list;
use sides::{ScopedPattern, check_side};
use table::tables::Tables;
use unifying::unify_patterns;

mod classes;
mod deciding;
pub mod example;
mod graph;
mod levels;
mod roots;
pub mod sides;
mod unifying;
mod writing;

// The refusals of one side.
pub fn refused_side(
    tables: &Tables<'_>,
    pattern: ScopedPattern,
    values: &[u32],
) -> Result<(), ExampleRefusal>
    ensures { SideCheckedIn (contents tables.now) pattern values result }
{
    check_side(tables, pattern, values)?;
    Ok(())
}

// The first side's refusals, then the second's.
fn check_sides(
    tables: &Tables<'_>,
    first: ScopedPattern,
    values1: &[u32],
    second: ScopedPattern,
    values2: &[u32],
) -> Result<(), ExampleRefusal>
    ensures { SidesCheckedIn (contents tables.now) first values1 second values2 result }
{
    refused_side(tables, first, values1)?;
    refused_side(tables, second, values2)
}

// The value of the joined roots' class.
fn write_joined(
    tables: &Tables<'_>,
    held1: &[u32; 128],
    root1: u32,
    joined: &Joined,
    example_nodes: &mut [u32],
    example_children: &mut [u32],
) -> Result<Option<Example>, ExampleRefusal>
    requires { WriteAsks (contents tables.now) held1.now root1 joined.now.graph.heads joined.now.graph.links joined.now.classes }
    ensures { let T = contents tables.now in WrittenIn T held1.now root1 joined.now example_nodes example_children result }
{
    let place = node_place(tables, held1, root1, 0);
    let entries = tables.children.len() as u32;
    write_example(
        tables.nodes,
        joined,
        place,
        entries,
        example_nodes,
        example_children,
    )
}

// `held1` and `held2` have for each name number the node of its value on that side, or 0.
fn give_example(
    tables: &Tables<'_>,
    held1: &[u32; 128],
    held2: &[u32; 128],
    root1: u32,
    root2: u32,
    example_nodes: &mut [u32],
    example_children: &mut [u32],
) -> Result<Option<Example>, ExampleRefusal>
    requires { GiveAsks (contents tables.now) held1.now held2.now root1 root2 }
    ensures { let T = contents tables.now in GivenIn T held1 held2 root1 root2 example_nodes example_children result }
{
    let mut joined = Joined {
        graph: Graph {
            heads: [0; HEAD_WORDS],
            links: [0; LINK_WORDS],
        },
        classes: [0; PLACES],
    };
    let unified = unify_patterns(tables, held1, held2, root1, root2, &mut joined);
    if !unified {
        clear(example_nodes);
        clear(example_children);
        return Ok(None);
    }
    write_joined(
        tables,
        held1,
        root1,
        &joined,
        example_nodes,
        example_children,
    )
}

// Of two sides that passed their checks.
fn example_of(
    tables: &Tables<'_>,
    first: ScopedPattern,
    values1: &[u32],
    second: ScopedPattern,
    values2: &[u32],
    example_nodes: &mut [u32],
    example_children: &mut [u32],
) -> Result<Option<Example>, ExampleRefusal>
    requires { PassedAsks (contents tables.now) (pattern_side first values1.now) (pattern_side second values2.now) }
    ensures { let T = contents tables.now in PassedIn T first values1 second values2 example_nodes example_children result }
{
    let scope1 = first.scope;
    let scoping1 = first.scoping;
    let scope2 = second.scope;
    let scoping2 = second.scoping;
    let held1 = start_list(tables.names, scope1, scoping1, values1);
    let held2 = start_list(tables.names, scope2, scoping2, values2);
    give_example(
        tables,
        &held1,
        &held2,
        first.root,
        second.root,
        example_nodes,
        example_children,
    )
}

// The example's nodes go on from the tables' and its child entries from their child list; both lists are zeros past it, and throughout where there is none.
pub fn common_example(
    tables: &Tables<'_>,
    first: ScopedPattern,
    values1: &[u32],
    second: ScopedPattern,
    values2: &[u32],
    example_nodes: &mut [u32],
    example_children: &mut [u32],
) -> Result<Option<Example>, ExampleRefusal>
    ensures { let T = contents tables.now in CommonIn T first values1 second values2 example_nodes example_children result }
{
    let checked = check_sides(tables, first, values1, second, values2);
    if let Err(refused) = checked {
        clear(example_nodes);
        clear(example_children);
        return Err(refused);
    }
    example_of(
        tables,
        first,
        values1,
        second,
        values2,
        example_nodes,
        example_children,
    )
}
