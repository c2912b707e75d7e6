// Handshakes: how the right answers a move of the left.
ghost use Rattle.std.specs.Prelude.{◌≡◌};
ghost use Rattle.labels.specs.Labels.{partner_found, pairing};
ghost use Rattle.tables.specs.Working.{moves_in};
ghost use Rattle.machines.specs.Working.{answer_to};

use labels::label::{Label, Labels};
use tables::leaving::leads_to;

// The label by which one of these rows of the right, with its target, answers a move of the left in a handshake that
// ends in these states of the left and the right; nobody answers a move that leads elsewhere.
pub fn answer_to(
    labels: Labels,
    label: Label,
    target: u8,
    answers: &[u8],
    left: u8,
    right: u8,
) -> Option<Label>
    ensures { result ≡ partner_found (answer_to (pairing labels) (moves_in answers.now) left right
        (label.0, target)) }
{
    let elsewhere = target != left;
    if elsewhere {
        return None;
    }
    let partner = labels.partner(label)?;
    leads_to(answers, partner, right).then_some(partner)
}
