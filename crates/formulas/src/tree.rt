// Trees in prefix order: where one ends, and how deep its forward modalities and its back modalities nest.
ghost use Rattle.std.specs.Prelude.{◌≡◌, cond, ◌+◌, ◌≤◌, max, get_or, length};
ghost use Rattle.formulas.specs.Operators.{is_forward, is_back};
ghost use Rattle.formulas.specs.Working.{node_of, tree_end, Tree, measure_of, operands_in};

use crate::node::{is_back, is_forward, read_node};

// The end of the first tree, for any bytes: each node takes the place of one that is due, and asks for its operands.
pub(crate) fn tree_end(f: &[u8]) -> Option<usize>
    ensures { result ≡ tree_end f.now }
{
    // Not a loop over the nodes: how many belong to the tree, only the nodes say.
    let mut due: usize = 1;
    let mut at: usize = 0;
    while 0 < due {
        if f.len() - at < 2 {
            return None;
        }
        due = due - 1 + read_node(f[at], f[at + 1])?;
        at += 2;
    }
    Some(at)
}

// A tree's length in bytes, and how deep its forward modalities and its back modalities nest.
#[derive(Clone, Copy)]
pub struct Measure {
    pub len: usize,
    pub nesting: usize,
    pub backs: usize,
}

// The measure of the first tree. The second operand begins where the first one ends.
pub(crate) fn measured(f: &[u8]) -> Measure
    requires { Tree f.now }
    ensures { result ≡ measure_of f.now }
{
    let operands = operands_of(f);
    if operands == 0 {
        return Measure {
            len: 2,
            nesting: 0,
            backs: 0,
        };
    }
    let body = &f[2..];
    let first = measured(body);
    let n = first.len;
    if operands == 1 {
        return Measure {
            len: 2 + n,
            nesting: usize::from(is_forward(f[0])) + first.nesting,
            backs: usize::from(is_back(f[0])) + first.backs,
        };
    }
    let second = measured(&body[n..]);
    Measure {
        len: 2 + n + second.len,
        nesting: first.nesting.max(second.nesting),
        backs: first.backs.max(second.backs),
    }
}

// How many operands the first node has; 0 for a bad one.
fn operands_of(f: &[u8]) -> usize
    requires { 2 ≤ length f.now }
    ensures { result ≡ operands_in (node_of (get_or f.now 0 0) (get_or f.now 1 0)) }
{
    read_node(f[0], f[1]).unwrap_or(0)
}
