// What a way makes each half do in a step of a joint run, and what the ways look at.
ghost use Rattle.std.specs.Prelude.{◌≡◌, ◌≤◌, length, get_or};
ghost use Rattle.labels.specs.Labels.{partner_found, pairing};
ghost use Rattle.tables.specs.Working.{moves_in};
ghost use Rattle.machines.specs.Working.{answer_to};

use halves::step::Step;
use labels::label::{Label, Labels};
use machines::handshake::answer_to;
use machines::step::States;

// What a way makes each half do.
#[derive(Clone, Copy)]
pub struct Way {
    pub left: Step,
    pub right: Step,
}

impl Way {
    // Both idle.
    pub const STILL: Way = Way {
        left: Step::Idle,
        right: Step::Idle,
    };
}

// The right's answer to the first of these rows of the left.
pub(crate) fn first_answer(
    labels: Labels,
    rows: &[u8],
    right: &[u8],
    after: States,
) -> Option<Label>
    requires { 3 ≤ length rows.now }
    ensures { result ≡ partner_found (answer_to (pairing labels) (moves_in right.now)
        after.left after.right (get_or rows.now 1 0, get_or rows.now 2 0)) }
{
    answer_to(
        labels,
        Label(rows[1]),
        rows[2],
        right,
        after.left,
        after.right,
    )
}
