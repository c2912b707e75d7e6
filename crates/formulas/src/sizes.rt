// The sizes of all trees of a formula, found once: with them a second operand is found without reading the first one.
ghost use Rattle.std.specs.Prelude.{◌≡◌, ◌≤◌, length, drop};
ghost use Rattle.formulas.specs.Working.{tree_size, sizes_of, sizes_over, size_behind};

use crate::node::read_node;

// The sizes of all trees of a formula, from its last node on: a node's size is known from those behind it.
pub fn tree_sizes(f: &[u8], sizes: &mut [usize])
    ensures { sizes.new ≡ sizes_over f.now sizes.old }
{
    let nodes = f.len() / 2;
    for i in 0..nodes.min(sizes.len()) {
        let at = 2 * (nodes - 1 - i);
        sizes[i] = first_size(&f[at..], &sizes[..i]);
    }
}

// The size of the first tree, from the sizes of those that begin behind its first node; 0 if the node is bad or an
// operand is missing.
fn first_size(f: &[u8], behind: &[usize]) -> usize
    requires in_bounds { 2 ≤ length f.now }
    requires behind_value { behind.now ≡ sizes_of (drop 2 f.now) }
    ensures { result ≡ tree_size f.now }
{
    let Some(operands) = read_node(f[0], f[1]) else {
        return 0;
    };
    if operands == 0 {
        return 1;
    }
    let n = size_behind(behind, 0);
    if n == 0 {
        return 0;
    }
    if operands == 1 {
        return 1 + n;
    }
    let m = size_behind(behind, n);
    if m == 0 {
        return 0;
    }
    1 + n + m
}

// The size of the tree that begins n nodes behind the first one; 0 behind the last.
#[tactic(auto, using(crate::proofs::TreeSizes::size_found, crate::proofs::TreeSizes::size_over))]
fn size_behind(sizes: &[usize], n: usize) -> usize
    ensures { result ≡ size_behind sizes.now n }
{
    let count = sizes.len();
    if count <= n {
        return 0;
    }
    sizes[count - 1 - n]
}
