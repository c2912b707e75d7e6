// How many forward modalities a formula has: a loop over its bytes, without a look at its tree.
ghost use Rattle.std.specs.Prelude.{◌≡◌};
ghost use Rattle.formulas.specs.Working.{forwards_in};

use crate::node::is_forward;

// How many nodes of some bytes are forward modalities. A byte left over at the end is no node.
#[tactic(auto, using(crate::proofs::ForwardCount::node_forwards, crate::proofs::ForwardCount::no_forwards))]
pub fn count_forwards(f: &[u8]) -> usize
    ensures { result ≡ forwards_in f.now }
{
    let mut count = 0;
    for node in f.chunks_exact(2) {
        if is_forward(node[0]) {
            count += 1;
        }
    }
    count
}
