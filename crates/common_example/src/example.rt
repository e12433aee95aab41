// The value of a class as the example: its words and then zeros, or all zeros.
ghost use Rattle.std.specs.Prelude.{◌≡◌};
ghost use Rattle.common_example.specs.code.Example.{FoundAsks, FoundWritten, ExampleAsks, ExampleWritten};

use crate::deciding::{Verdict, decide};
use crate::graph::{Joined, PLACES};
use crate::levels::{settle, size_at};
use crate::sides::SideRefusal;
use crate::writing::{Source, write_place};
use planner::buffer::clear;

// The node of the value, and how many nodes and child entries it has.
#[derive(Clone, Copy)]
pub struct Example {
    pub node: u32,
    pub nodes: u32,
    pub children: u32,
}

#[derive(Clone, Copy)]
pub enum ExampleRefusal {
    SideRefused(SideRefusal),
    ValueTooLarge,
}

impl From<SideRefusal> for ExampleRefusal {
    ghost use Rattle.common_example.specs.declared.example.ExampleRefusal.TheVariants.{SideRefused};

    ghost from_gives = { λ refused r. r ≡ SideRefused refused };

    fn from(refused: SideRefusal) -> ExampleRefusal {
        ExampleRefusal::SideRefused(refused)
    }
}

// A value that has space, behind the tables' nodes and `entries` child entries.
fn write_found(
    nodes: &[u32],
    joined: &Joined,
    sizes: &[u16; PLACES],
    place: u32,
    entries: u32,
    out: &mut [u32],
    children: &mut [u32],
) -> Example
    requires { FoundAsks nodes.now joined.now.graph.heads joined.now.graph.links joined.now.classes sizes.now place entries out.old children.old }
    ensures { FoundWritten nodes.now joined.now place entries out children result }
{
    let before = (nodes.len() / 5) as u32;
    let source = Source {
        nodes,
        joined,
        sizes,
        before,
        entries,
    };
    write_place(&source, place, 32, 0, 0, out, children);
    let size = size_at(sizes, place);
    Example {
        node: before + size,
        nodes: size,
        children: size - 1,
    }
}

pub(crate) fn write_example(
    nodes: &[u32],
    joined: &Joined,
    place: u32,
    entries: u32,
    out: &mut [u32],
    children: &mut [u32],
) -> Result<Option<Example>, ExampleRefusal>
    requires { ExampleAsks nodes.now joined.now.graph.heads joined.now.graph.links joined.now.classes place entries }
    ensures { ExampleWritten nodes.now joined.now place entries out children result }
{
    clear(out);
    clear(children);
    let mut sizes = [0u16; PLACES];
    settle(joined, 32, &mut sizes);
    let verdict = decide(joined, &mut sizes, place, out.len(), children.len());
    match verdict {
        Verdict::Fits => Ok(Some(write_found(
            nodes, joined, &sizes, place, entries, out, children,
        ))),
        Verdict::TooLarge => Err(ExampleRefusal::ValueTooLarge),
        Verdict::NoValue => Ok(None),
    }
}
