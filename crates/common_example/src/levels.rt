// How large the value of each class is, level by level. A class that holds itself never has one.
ghost use Rattle.std.specs.Prelude.{◌+◌, ◌<◌, min, ◌≡◌, get_or};
ghost use Rattle.common_example.specs.code.Graph.{step_of};
ghost use Rattle.common_example.specs.code.Sizes.{CapAsks, SumAsks, sum_at, SizeAsks, place_size, LevelAsks, LevelDone, SettleAsks, Settled};

use crate::classes::class_of;
use crate::graph::{Graph, Joined, PLACES, Parts, Shape};

// Sizes stop at 513, one more than a value may have.
fn capped(total: u32, size: u32) -> u32
    requires { CapAsks total size }
    ensures { result ≡ min 513 (total + size) }
{
    (total + size).min(513)
}

// The size of a place's value; 0 for none, not an Option: levels are compared and copied whole as lists of numbers.
pub(crate) fn size_at(sizes: &[u16; PLACES], place: u32) -> u32
    requires { place < 2052 }
    ensures { result ≡ get_or sizes.now place 0 }
{
    sizes[place as usize] as u32
}

// The sizes of all parts, added to `start`; 0 where one has none yet.
fn sum_sizes(graph: &Graph, sizes: &[u16; PLACES], parts: Parts, start: u32) -> u32
    requires { SumAsks graph.now.links sizes.now (step_of parts.shape) parts.link parts.count start }
    ensures { result ≡ sum_at graph.now.links sizes.now (step_of parts.shape) parts.link parts.count start }
{
    let mut total = start;
    let mut link = parts.link;
    for _part in 0..parts.count {
        let size = size_at(sizes, graph.links[link]);
        if size == 0 {
            return 0;
        }
        total = capped(total, size);
        link += parts.shape.step();
    }
    total
}

// The size of a class's value, from the sizes one level below.
fn place_size(graph: &Graph, sizes: &[u16; PLACES], class: u32) -> u32
    requires { SizeAsks graph.now.heads graph.now.links sizes.now class }
    ensures { result ≡ place_size graph.now.heads graph.now.links sizes.now class }
{
    let Some(parts) = graph.parts_at(class) else {
        return 1;
    };
    match parts.shape {
        Shape::Items => sum_sizes(graph, sizes, parts, 1),
        Shape::Fields => sum_sizes(graph, sizes, parts, 1 + parts.count),
    }
}

// The sizes of values of one level more.
fn next_sizes(joined: &Joined, sizes: &[u16; PLACES]) -> [u16; PLACES]
    requires { LevelAsks joined.now.graph.heads joined.now.graph.links joined.now.classes sizes.now }
    ensures { LevelDone joined.now.graph.heads joined.now.graph.links joined.now.classes sizes.now result }
{
    let mut next = [0u16; PLACES];
    for place in 0u32..2052 {
        let class = class_of(&joined.classes, place);
        next[place as usize] = place_size(&joined.graph, sizes, class) as u16;
    }
    next
}

// The sizes of values of at most so many levels; once a level changes nothing, none after it does.
pub(crate) fn settle(joined: &Joined, levels: u32, sizes: &mut [u16; PLACES])
    requires { SettleAsks joined.now.graph.heads joined.now.graph.links joined.now.classes }
    ensures { Settled joined.now.graph.heads joined.now.graph.links joined.now.classes levels sizes.new }
{
    *sizes = [0u16; PLACES];
    for _done in 0..levels {
        let next = next_sizes(joined, sizes);
        if *sizes == next {
            return;
        }
        *sizes = next;
    }
}
