// Joint runs: the check against two tables.
ghost use Rattle.std.specs.Prelude.{◌≡◌, ◌%◌, ◌&&◌, eqb, length};
ghost use Rattle.hml.specs.Lists.{any};
ghost use Rattle.labels.specs.Labels.{pairing};
ghost use Rattle.tables.specs.Tables.{table_of, among};
ghost use Rattle.tables.specs.Working.{Ready, moves_in};
ghost use Rattle.machines.specs.Working.{is_answered};
ghost use Rattle.machines.specs.Joints.{is_joint_idle, is_real_step, is_joint_run, check_tables_and_joint};

use crate::handshake::answer_to;
use crate::step::{JointStep, States, joint_step};
use labels::label::{Label, Labels};
use labels::refusal::Refusal;
use tables::check::check_table;
use tables::leaving::{has_row, leads_to, rows_leaving};
use tables::row::rows_in;

// The check of two tables and of a joint run of them: the tables' numbers, then 3 and 8.
pub fn check_joint(labels: Labels, left: &[u8], right: &[u8], run: &[u8]) -> Result<(), Refusal>
    ensures { result ≡ check_tables_and_joint labels left.now right.now
        run.now }
{
    check_table(labels, left)?;
    check_table(labels, right)?;
    let n = run.len();
    if n % 3 != 2 || 602 < n {
        return Err(Refusal::WrongLength);
    }
    if is_joint_run(labels, left, right, run) {
        Ok(())
    } else {
        Err(Refusal::NotReal)
    }
}

// 8, for tables that no check refuses and a run of fit length.
#[tactic(auto, using(crate::proofs::Steps::step_found))]
fn is_joint_run(labels: Labels, left: &[u8], right: &[u8], run: &[u8]) -> bool
    requires ready { Ready left.now × Ready right.now }
    requires run_len { length run.now % 3 ≡ 2 }
    ensures { result ≡ is_joint_run labels left.now right.now run.now }
{
    if left[0] <= run[0] || right[0] <= run[1] {
        return false;
    }
    // Counted by hand, since `joint_step` says where the steps end: a `for` would have an arm that is never taken.
    let mut i = 0;
    while let Some(step) = joint_step(run, i) {
        if !is_real(labels, left, right, step) {
            return false;
        }
        i += 1;
    }
    true
}

// The four ways that make a step real. A side's rows are looked up only where one of the ways left may be by them: a
// search among 512 rows is what a step costs.
fn is_real(labels: Labels, left: &[u8], right: &[u8], step: JointStep) -> bool
    requires { Ready left.now × Ready right.now }
    ensures { result ≡ is_real_step (pairing labels) (table_of left.now) (table_of right.now)
        (step.before.left, step.before.right) step.label.0 (step.after.left, step.after.right) }
{
    let from = step.before;
    let to = step.after;
    let label = step.label;
    if to.right != from.right {
        return moves_right(labels, left, right, step);
    }
    if is_joint_idle(step) {
        return true;
    }
    let left = rows_leaving(left, from.left);
    if moves_alone(left, label, to.left, from.right, to.right) {
        return true;
    }
    let right = rows_leaving(right, from.right);
    moves_alone(right, label, to.right, from.left, to.left)
        || is_handshake(labels, left, right, label, to)
}

// The two ways of a step that changes the right's state: the right alone, or a handshake.
fn moves_right(labels: Labels, left: &[u8], right: &[u8], step: JointStep) -> bool
    requires ready { Ready left.now × Ready right.now }
    requires changed { step.after.right ≡ step.before.right → ⊥ }
    ensures { result ≡ is_real_step (pairing labels) (table_of left.now) (table_of right.now)
        (step.before.left, step.before.right) step.label.0 (step.after.left, step.after.right) }
{
    let from = step.before;
    let to = step.after;
    if to.left == from.left && has_row(right, from.right, step.label, to.right) {
        return true;
    }
    let left = rows_leaving(left, from.left);
    is_handshake(
        labels,
        left,
        rows_leaving(right, from.right),
        step.label,
        to,
    )
}

// One side moves by one of these rows, and the other keeps its state: it is `other` before the step and `kept` after it.
pub fn moves_alone(rows: &[u8], label: Label, to: u8, other: u8, kept: u8) -> bool
    ensures { result ≡ (eqb kept other && among (moves_in rows.now) label.0 to) }
{
    kept == other && leads_to(rows, label, to)
}

// Label 0, and one of these rows of the left has a label whose partner leads there by one of these rows of the right.
fn is_handshake(labels: Labels, left: &[u8], right: &[u8], label: Label, to: States) -> bool
    ensures { result ≡ (eqb label.0 0
        && any (is_answered (pairing labels) (moves_in right.now) to.left to.right) (moves_in left.now)) }
{
    if !label.is_silent() {
        return false;
    }
    rows_in(left).iter().any(|row| {
        answer_to(labels, Label(row[1]), row[2], right, to.left, to.right).is_some()
    })
}

// Label 255, and both states kept.
#[tactic(auto, unfolding(crate::specs::Joints::is_joint_idle))]
fn is_joint_idle(step: JointStep) -> bool
    ensures { result ≡ is_joint_idle step.before.left step.before.right step.label.0
        step.after.left step.after.right }
{
    step.label.is_idle() && step.after == step.before
}
