// How far back a formula looks: the depth to which its back modalities nest.
ghost use Rattle.std.specs.Prelude.{◌≡◌, ◌≤◌, length};
ghost use Rattle.formulas.specs.Working.{backs_of};

use crate::tree::{measured, tree_end};

// How deep the back modalities of a formula nest; 0 for bytes that are no formula.
pub fn back_depth(f: &[u8]) -> usize
    ensures value { result ≡ backs_of f.now }
    ensures few { result ≤ length f.now }
{
    let longer = tree_end(f) != Some(f.len());
    if longer {
        return 0;
    }
    measured(f).backs
}
