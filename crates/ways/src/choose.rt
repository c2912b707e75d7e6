// The way of a number.
ghost use Rattle.std.specs.Prelude.{◌≡◌};
ghost use Rattle.labels.specs.Labels.{pairing};
ghost use Rattle.tables.specs.Working.{moves_in};
ghost use Rattle.ways.specs.Working.{ways_here, handshakes, way_struct, chosen};

use crate::step::{Way, first_answer};
use halves::step::{Move, Step};
use labels::label::{Label, Labels};
use machines::joint::moves_alone;
use machines::step::JointStep;

// The way of a number, from 0, by the rows that leave the step's states. Beyond the last way both halves idle.
#[tactic(auto, using(crate::proofs::RowWays::sides_sought), unfolding(crate::specs::Working::way_struct, halves::specs::Steps::step_struct))]
pub fn nth_way(labels: Labels, left: &[u8], right: &[u8], step: JointStep, n: usize) -> Way
    ensures { result ≡ way_struct (chosen (ways_here (pairing labels) (moves_in left.now)
        (moves_in right.now) step) n) }
{
    let JointStep {
        before,
        label,
        after,
    } = step;
    if label.is_idle() {
        return Way::STILL;
    }
    let mut passed = n;
    if moves_alone(left, label, after.left, before.right, after.right) {
        if passed == 0 {
            let target = after.left;
            return Way {
                left: Step::Move(Move { label, target }),
                right: Step::Idle,
            };
        }
        passed -= 1;
    }
    if moves_alone(right, label, after.right, before.left, after.left) {
        if passed == 0 {
            let target = after.right;
            return Way {
                left: Step::Idle,
                right: Step::Move(Move { label, target }),
            };
        }
        passed -= 1;
    }
    nth_handshake(labels, left, right, step, passed)
}

// The handshake of a number, by rising left label.
#[tactic(auto, using(crate::proofs::RowWays::rows_sought), unfolding(crate::specs::Working::way_struct, halves::specs::Steps::step_struct))]
fn nth_handshake(labels: Labels, left: &[u8], right: &[u8], step: JointStep, n: usize) -> Way
    ensures { result ≡ way_struct (chosen (handshakes (pairing labels) (moves_in left.now)
        (moves_in right.now) step) n) }
{
    if !step.label.is_silent() {
        return Way::STILL;
    }
    let mut passed = n;
    for row in left.chunks_exact(3) {
        let Some(partner) = first_answer(labels, row, right, step.after) else {
            continue;
        };
        if passed == 0 {
            return Way {
                left: Step::Move(Move {
                    label: Label(row[1]),
                    target: row[2],
                }),
                right: Step::Move(Move {
                    label: partner,
                    target: step.after.right,
                }),
            };
        }
        passed -= 1;
    }
    Way::STILL
}
