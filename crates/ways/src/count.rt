// How many ways a step has.
ghost use Rattle.std.specs.Prelude.{◌≡◌, length};
ghost use Rattle.labels.specs.Labels.{pairing};
ghost use Rattle.tables.specs.Working.{moves_in};
ghost use Rattle.ways.specs.Working.{ways_here, handshakes};

use crate::step::first_answer;
use labels::label::Labels;
use machines::joint::moves_alone;
use machines::step::JointStep;

// How many ways a step has, by the rows that leave its states.
#[tactic(auto, using(crate::proofs::RowWays::sides_counted))]
pub fn count_ways(labels: Labels, left: &[u8], right: &[u8], step: JointStep) -> usize
    ensures { result ≡ length (ways_here (pairing labels) (moves_in left.now)
        (moves_in right.now) step) }
{
    let JointStep {
        before,
        label,
        after,
    } = step;
    if label.is_idle() {
        return 1;
    }
    let left_alone = moves_alone(left, label, after.left, before.right, after.right);
    let right_alone = moves_alone(right, label, after.right, before.left, after.left);
    let handshakes = count_handshakes(labels, left, right, step);
    usize::from(left_alone) + usize::from(right_alone) + handshakes
}

// How many rows of the left shake hands with a row of the right; none does in a step that is not silent.
#[tactic(auto, using(crate::proofs::RowWays::rows_counted))]
fn count_handshakes(labels: Labels, left: &[u8], right: &[u8], step: JointStep) -> usize
    ensures { result ≡ length (handshakes (pairing labels) (moves_in left.now)
        (moves_in right.now) step) }
{
    if !step.label.is_silent() {
        return 0;
    }
    let mut ways = 0;
    for row in left.chunks_exact(3) {
        if first_answer(labels, row, right, step.after).is_some() {
            ways += 1;
        }
    }
    ways
}
