// Joining two halves to the joint run that they split.
ghost use Rattle.std.specs.Prelude.{◌≡◌, true, ◌+◌, ◌*◌, ◌≤◌, ◌<◌, length};
ghost use Rattle.labels.specs.Labels.{pairing, partner_found};
ghost use Rattle.labels.specs.Refusals.{in_front};
ghost use Rattle.halves.specs.Steps.{step_read};
ghost use Rattle.machines.specs.Working.{put};
ghost use Rattle.joining.specs.Joinings.{halves_match, join_bytes, check_halves, joining_of, join_output};
ghost use Rattle.joining.specs.Working.{
  HalfBytes,
  check_runs,
  shaken_label,
  joint_label,
  label_read,
};

use halves::half::check_half;
use halves::step::{Step, step_at};
use labels::label::{Label, Labels};
use labels::refusal::Refusal;
use tables::check::check_table;

// Writes the joint run that two halves give: 4, the tables' numbers, then 15, 16 and 18.
pub fn join(
    labels: Labels,
    left: &[u8],
    right: &[u8],
    left_half: &[u8],
    right_half: &[u8],
    out: &mut [u8],
) -> Result<usize, Refusal>
    ensures value { result ≡ joining_of labels left.now right.now left_half.now
        right_half.now (length out.old) }
    ensures out_after { out.new ≡ join_output labels left.now right.now
        left_half.now
        right_half.now out.old }
{
    check_halves(labels, left, right, left_half, right_half)?;
    let steps = left_half.len() / 2;
    let len = 3 * steps + 2;
    if out.len() < len {
        return Err(Refusal::OutputTooShort);
    }
    write_run(labels, left_half, right_half, out);
    Ok(len)
}

// What a call judges that takes halves: 4, the tables' numbers, then 15 for either half, then 16.
pub fn check_halves(
    labels: Labels,
    left: &[u8],
    right: &[u8],
    left_half: &[u8],
    right_half: &[u8],
) -> Result<(), Refusal>
    ensures { result ≡ check_halves labels left.now right.now left_half.now
        right_half.now }
{
    labels.check()?;
    check_runs(labels, left, right, left_half, right_half)?;
    if !halves_match(labels, left_half, right_half) {
        return Err(Refusal::HalvesDoNotMatch);
    }
    Ok(())
}

// Both tables, then both halves. Where nothing is refused each table is judged once.
fn check_runs(
    labels: Labels,
    left: &[u8],
    right: &[u8],
    left_half: &[u8],
    right_half: &[u8],
) -> Result<(), Refusal>
    ensures { result ≡ check_runs labels left.now right.now left_half.now
        right_half.now }
{
    if let Err(refusal) = check_half(labels, left, left_half) {
        // The right table's numbers come before a 15 of the left half.
        check_table(labels, left)?;
        check_table(labels, right)?;
        return Err(refusal);
    }
    check_half(labels, right, right_half)
}

// 16: are the halves equally long, and does each step match?
fn halves_match(labels: Labels, left: &[u8], right: &[u8]) -> bool
    requires { HalfBytes left.now × HalfBytes right.now }
    ensures { result ≡ halves_match labels left.now right.now }
{
    if left.len() != right.len() {
        return false;
    }
    let steps = left.len() / 2;
    (0..steps).all(|i| label_at(labels, left, right, i).is_some())
}

// The label of the joint step that step i of each half forms, if both have one and they match.
#[tactic(auto, unfolding(crate::specs::Working::label_read, labels::specs::Labels::partner_found))]
fn label_at(labels: Labels, left: &[u8], right: &[u8], i: usize) -> Option<Label>
    ensures { result ≡ partner_found (label_read (pairing labels) (step_read left.now i)
        (step_read right.now i)) }
{
    joint_label(labels, step_at(left, i)?, step_at(right, i)?)
}

// Two idles form an idle, a move and an idle that move, two moves a silent step if their labels shake hands.
#[tactic(auto, unfolding(crate::specs::Working::joint_label, labels::specs::Labels::partner_found))]
fn joint_label(labels: Labels, left: Step, right: Step) -> Option<Label>
    ensures { result ≡ partner_found (joint_label (pairing labels) left right) }
{
    match (left, right) {
        (Step::Move(left), Step::Move(right)) => shaken_label(labels, left.label, right.label),
        (Step::Move(moved), Step::Idle) | (Step::Idle, Step::Move(moved)) => Some(moved.label),
        (Step::Idle, Step::Idle) => Some(Label::IDLE),
    }
}

// What two moves of these labels form.
fn shaken_label(labels: Labels, left: Label, right: Label) -> Option<Label>
    ensures { result ≡ partner_found (shaken_label (pairing labels) left.0 right.0) }
{
    if labels.partner(left) == Some(right) {
        return Some(Label::SILENT);
    }
    None
}

// Writes the joint run of halves that match.
fn write_run(labels: Labels, left: &[u8], right: &[u8], out: &mut [u8])
    requires half_bytes { HalfBytes left.now × HalfBytes right.now }
    requires right_value { halves_match labels left.now right.now ≡ true }
    requires right_in_bounds { length (join_bytes labels left.now right.now) ≤ length out.old }
    ensures { out.new ≡ in_front (join_bytes labels left.now right.now)
        out.old }
{
    out[0] = left[0];
    out[1] = right[0];
    let steps = left.len() / 2;
    for i in 0..steps {
        // Each step of halves that match has a label.
        let Some(label) = label_at(labels, left, right, i) else {
            return;
        };
        put_joint_step(out, i, label, left[2 * i + 2], right[2 * i + 2]);
    }
}

// Writes joint step i: its label and the states after it.
fn put_joint_step(out: &mut [u8], i: usize, label: Label, left: u8, right: u8)
    requires { 3 * i + 4 < length out.old }
    ensures { out.new ≡ put out.old (3 * i + 2) label.0 left right }
{
    let to = 3 * i + 2;
    out[to] = label.0;
    out[to + 1] = left;
    out[to + 2] = right;
}
