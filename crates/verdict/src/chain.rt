// Chains: formulas of "not" and back modalities alone, over true or false. Their verdict is read off the formula's bytes
// and the run's: it needs no words of the formula and no rows.
ghost use Rattle.std.specs.Prelude.{◌≡◌, ◌≤◌, take};
ghost use Rattle.labels.specs.declared.label.Labels.{Labels};
ghost use Rattle.machines.specs.Joints.{joint_of};
ghost use Rattle.machines.specs.Working.{Held};
ghost use Rattle.formulas.specs.Formulas.{quotient_limit, Legal};
ghost use Rattle.verdict.specs.Working.{Tells};

use crate::back::steps_back;
use formulas::node::is_back;

// What the formula's first nodes, up to one that is neither "not" nor a back modality, tell of its verdict on the run in
// the first len bytes.
pub(crate) fn judge_chain(run: &[u8; 614], len: usize, formula: &[u8]) -> Option<bool>
    requires held { Held run.now len × (len ≤ 602) }
    requires legal { (k : Labels) × Legal k quotient_limit formula.now }
    ensures { Tells result formula.now (joint_of (take len run.now)) }
{
    let mut len = len;
    // Does "not" stand an even number of times before what is left?
    let mut even = true;
    for node in 0..formula.len() / 2 {
        match formula[2 * node] {
            0 => return Some(even),
            1 => return Some(!even),
            2 => even = !even,
            operator if is_back(operator) => {
                if !steps_back(run, len, operator, formula[2 * node + 1]) {
                    return Some(!even);
                }
                len -= 3;
            }
            _ => return None,
        }
    }
    None
}
