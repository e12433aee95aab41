// A common example over names in pairs of words.
ghost use Rattle.std.specs.Prelude.{◌≤◌};
ghost use Rattle.common_example.specs.Common.{CommonIn};
ghost use Rattle.teluddru.specs.code.Copying.{lent_words};

use crate::records::NameWords;
use common_example::example::{Example, ExampleRefusal};
use common_example::sides::ScopedPattern;

pub(crate) fn example_words<'a>(
    nodes: &[u32],
    children: &[u32],
    numbers: &[u64],
    names: NameWords,
    strings: &'a [u8],
    text: &'a [u8],
    first: ScopedPattern,
    values1: &[u32],
    second: ScopedPattern,
    values2: &[u32],
    example_nodes: &mut [u32],
    example_children: &mut [u32],
) -> Result<Option<Example>, ExampleRefusal>
    requires { names.count ≤ 129 }
    ensures { let T = lent_words nodes children numbers names strings text in
        CommonIn T first values1 second values2 example_nodes example_children result }
{
    let tables = names.among(nodes, children, numbers, strings, text);
    common_example::common_example(
        &tables,
        first,
        values1,
        second,
        values2,
        example_nodes,
        example_children,
    )
}
