// The nodes' depths, from the lowest number up.
ghost use Rattle.std.specs.Prelude.{◌≡◌, ◌/◌, ◌≤◌, max, length};
ghost use Rattle.table.specs.code.Depths.{deepest, listed_depth, ChildrenAsks, DepthsAsks, DepthsTold};

use crate::reading::{child_at, node_word, width_at};

fn deeper(a: u8, b: u8) -> u8
    ensures { result ≡ max a b }
{
    if a < b {
        return b;
    }
    a
}

// The greatest depth of the children, where the depth of node n stands at n - 1.
fn deepest_of(children: &[u32], depths: &[u8; 512], first: usize, count: usize) -> u8
    requires { ChildrenAsks children.now first count }
    ensures { result ≡ deepest (listed_depth depths.now) children.now first count }
{
    let mut deep: u8 = 0;
    for i in 0..count {
        let child = child_at(children, first + i) as usize;
        deep = deeper(deep, depths[child - 1]);
    }
    deep
}

// Is the depth of each of the first `total` nodes at most 32? A child's stands before its parent's.
pub fn depths_ok(nodes: &[u32], children: &[u32], total: usize) -> bool
    requires { DepthsAsks nodes.now children.now × (total ≤ length nodes.now / 5) }
    ensures { DepthsTold nodes.now children.now total result }
{
    let mut depths = [0u8; 512];
    for n in 0..total {
        let first = node_word(nodes, n, 3) as usize;
        let count = width_at(nodes, n);
        let deep = deepest_of(children, &depths, first, count);
        if 31 < deep {
            return false;
        }
        depths[n] = deep + 1;
    }
    true
}
