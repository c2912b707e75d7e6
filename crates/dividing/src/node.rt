// Nodes of the quotient: two bytes each, and what a back modality becomes by the last step of the known half.
ghost use Rattle.std.specs.Prelude.{◌≡◌, [], ◌∷◌, ◌≤◌, length};
ghost use Rattle.labels.specs.Refusals.{in_front};
ghost use Rattle.dividing.specs.Working.{past_of, past_move, past_read, last_read};

use halves::step::{Step, step_at};
use labels::label::{Label, Labels};

#[derive(Clone, Copy)]
pub(crate) struct Node {
    pub operator: u8,
    pub label: Label,
}

impl Node {
    // Back by idle.
    const BACK_BY_IDLE: Node = Node {
        operator: 8,
        label: Label::SILENT,
    };
}

// A back modality, by its operator and label, where this is the known half. It fails on a half without steps.
#[tactic(auto, using(crate::proofs::Nodes::no_steps), unfolding(crate::specs::Working::past_read, crate::specs::Working::last_read))]
pub(crate) fn past_node(labels: Labels, operator: u8, label: Label, half: &[u8]) -> Option<Node>
    ensures { result ≡ past_read labels operator label.0 (last_read half.now) }
{
    let steps = half.len() / 2;
    let last = step_at(half, steps.checked_sub(1)?)?;
    past_step(labels, operator, label, last)
}

// The same where the known half ends in this step.
#[tactic(auto, unfolding(crate::specs::Working::past_of))]
fn past_step(labels: Labels, operator: u8, label: Label, last: Step) -> Option<Node>
    ensures { result ≡ past_of labels operator label.0 last }
{
    match last {
        Step::Move(moved) => past_move(labels, operator, label, moved.label),
        Step::Idle if operator == 6 => Some(Node { operator, label }),
        Step::Idle => Some(Node::BACK_BY_IDLE),
    }
}

// The same where it ends in a move of this label.
#[tactic(auto, unfolding(crate::specs::Working::past_move, labels::specs::Labels::partner_found))]
fn past_move(labels: Labels, operator: u8, label: Label, moved: Label) -> Option<Node>
    ensures { result ≡ past_move labels operator label.0 moved.0 }
{
    if operator != 6 {
        return None;
    }
    if moved == label {
        return Some(Node::BACK_BY_IDLE);
    }
    if !label.is_silent() {
        return None;
    }
    let partner = labels.partner(moved)?;
    Some(Node {
        operator,
        label: partner,
    })
}

// Writes a node, by its operator and label.
#[tactic(auto, using(labels::proofs::Outputs::put_two))]
pub(crate) fn put_node(out: &mut [u8], operator: u8, label: u8)
    requires { 2 ≤ length out.old }
    ensures { out.new ≡ in_front (operator ∷ label ∷ []) out.old }
{
    out[0] = operator;
    out[1] = label;
}
