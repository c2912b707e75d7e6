// The verdict of a formula on a joint run that stands in a buffer. A look ahead writes one step behind the run, judges
// the longer run, and puts back what stood there: after a back modality these are steps of the log. A tree is named by
// the number of the formula's nodes from its first one on. What the functions hand on are numbers, references to arrays
// and structs of one or two fields, and no struct of them all, so that the recursion of `try_rows` over the rows left
// is a loop in the compiled code (measured: docs/DECISIONS.md, "No slice in the search").
ghost use Rattle.std.specs.Prelude.{◌≡◌, ℕ, ◌+◌, ◌-◌, ◌≤◌, true, false, get_or, take, drop, set};
ghost use Rattle.hml.specs.Lists.{present};
ghost use Rattle.hml.specs.System.{◌▸◌};
ghost use Rattle.hml.specs.Formula.{fwd};
ghost use Rattle.labels.specs.Labels.{pairing};
ghost use Rattle.halves.specs.Runs.{step_of};
ghost use Rattle.machines.specs.Joints.{joint_of};
ghost use Rattle.formulas.specs.Operators.{is_forward};
ghost use Rattle.verdict.specs.Working.{
  TwoGrids,
  Inside,
  Placed,
  Ready,
  Shown,
  judged_by,
  tree_at,
  goes_on,
  operator_in,
  left_in,
  right_in,
  pairs_in,
  grid_of,
  tried,
  shaken,
  targets_of,
  grid_by,
  state_by,
  other_by,
};

use crate::back::{goes_on, steps_back};
use crate::code::{first_size_in, label_in, operator_in};
use crate::grids::{Rows, rows_from, wanted_rows};
use crate::never::fails_everywhere;
use crate::trial::{Mover, Trial, last_states, place_by};
use formulas::node::{is_back, is_forward};
use halves::step::Move;
use labels::label::{Label, Labels};

// Does the tree that the formula's last `nodes` nodes begin with hold on the run in the first len bytes? "And" and "or"
// stop as soon as they can, and go on with their second operand here, as "not" does with its only one, and a back
// modality on the shorter run.
#[cycle(judging)]
pub(crate) fn holds(
    labels: Labels,
    grids: &[u8; 2176],
    code: &[u16; 4097],
    run: &mut [u8; 614],
    len: usize,
    nodes: usize,
) -> bool
    requires two_grids { TwoGrids grids.now }
    requires ready { Ready labels code.now run.old len 0 nodes }
    ensures value { result ≡ judged_by labels grids.now (tree_at code.now nodes)
        (joint_of (take len run.old)) }
    ensures run_unchanged { run.new ≡ run.old }
{
    let mut len = len;
    let mut nodes = nodes;
    // Does "not" stand an even number of times before what is left?
    let mut even = true;
    // From node to node: how far, each word says.
    while goes_on(operator_in(code[nodes])) {
        let word = code[nodes];
        let operator = operator_in(word);
        // With `continue`: as `if`, `else if` and `else` this takes 22 instructions for 17 at each operand of an "or".
        if operator == 2 {
            even = !even;
            nodes -= 1;
            continue;
        }
        if is_back(operator) {
            if !steps_back(run, len, operator, label_in(word)) {
                return !even;
            }
            len -= 3;
            nodes -= 1;
            continue;
        }
        let first = operand(labels, grids, code, run, len, nodes - 1);
        if first == (operator == 4) {
            return first == even;
        }
        // The second operand begins where the first one ends.
        nodes = nodes - 1 - first_size_in(word);
    }
    judge(labels, grids, code, run, len, nodes) == even
}

// The same for an operand: true, false and the forward modalities need no loop. (As a test by `goes_on` in front of
// `holds` and `judge`, an "or" over 2,047 times false took 15 million instructions for 9.)
#[cycle(judging)]
fn operand(
    labels: Labels,
    grids: &[u8; 2176],
    code: &[u16; 4097],
    run: &mut [u8; 614],
    len: usize,
    nodes: usize,
) -> bool
    requires two_grids { TwoGrids grids.now }
    requires ready { Ready labels code.now run.old len 0 nodes }
    ensures value { result ≡ judged_by labels grids.now (tree_at code.now nodes)
        (joint_of (take len run.old)) }
    ensures run_unchanged { run.new ≡ run.old }
{
    match operator_in(code[nodes]) {
        0 => true,
        1 => false,
        operator if is_forward(operator) => ahead(labels, grids, code, run, len, nodes),
        _ => holds(labels, grids, code, run, len, nodes),
    }
}

// The same for true, false and the forward modalities alone.
#[cycle(judging)]
fn judge(
    labels: Labels,
    grids: &[u8; 2176],
    code: &[u16; 4097],
    run: &mut [u8; 614],
    len: usize,
    nodes: usize,
) -> bool
    requires two_grids { TwoGrids grids.now }
    requires ready { Ready labels code.now run.old len 0 nodes }
    requires nodes_value { goes_on (operator_in (get_or code.now nodes 0)) ≡ false }
    ensures value { result ≡ judged_by labels grids.now (tree_at code.now nodes)
        (joint_of (take len run.old)) }
    ensures run_unchanged { run.new ≡ run.old }
{
    match operator_in(code[nodes]) {
        0 => true,
        1 => false,
        _ => ahead(labels, grids, code, run, len, nodes),
    }
}

// The same for a forward modality.
#[cycle(judging)]
fn ahead(
    labels: Labels,
    grids: &[u8; 2176],
    code: &[u16; 4097],
    run: &mut [u8; 614],
    len: usize,
    nodes: usize,
) -> bool
    requires two_grids { TwoGrids grids.now }
    requires ready { Ready labels code.now run.old len 0 nodes }
    requires nodes_value { is_forward (operator_in (get_or code.now nodes 0)) ≡ true }
    ensures value { result ≡ judged_by labels grids.now (tree_at code.now nodes)
        (joint_of (take len run.old)) }
    ensures run_unchanged { run.new ≡ run.old }
{
    let word = code[nodes];
    if operator_in(word) == 7 {
        return stay(labels, grids, code, run, len, nodes - 1);
    }
    forward(
        labels,
        grids,
        code,
        run,
        len,
        Label(label_in(word)),
        nodes - 1,
    )
}

// Does the tree hold after one of the real steps of this label: the left alone, the right alone, or a handshake?
#[cycle(judging)]
fn forward(
    labels: Labels,
    grids: &[u8; 2176],
    code: &[u16; 4097],
    run: &mut [u8; 614],
    len: usize,
    label: Label,
    nodes: usize,
) -> bool
    requires two_grids { TwoGrids grids.now }
    requires ready { Ready labels code.now run.old len 1 nodes }
    requires shown { Shown label.0 }
    ensures value { result ≡ judged_by labels grids.now (fwd label.0 (tree_at code.now nodes))
        (joint_of (take len run.old)) }
    ensures run_unchanged { run.new ≡ run.old }
{
    // What fails everywhere holds after no step.
    if fails_everywhere(code, nodes) {
        return false;
    }
    if try_alone(labels, grids, code, run, len, Mover::Left, label, nodes) {
        return true;
    }
    if try_alone(labels, grids, code, run, len, Mover::Right, label, nodes) {
        return true;
    }
    if !label.is_silent() {
        return false;
    }
    try_both(labels, grids, code, run, len, nodes)
}

// Does it hold after one of the steps of this label that this side makes alone?
#[cycle(judging)]
fn try_alone(
    labels: Labels,
    grids: &[u8; 2176],
    code: &[u16; 4097],
    run: &mut [u8; 614],
    len: usize,
    mover: Mover,
    label: Label,
    nodes: usize,
) -> bool
    requires two_grids { TwoGrids grids.now }
    requires ready { Ready labels code.now run.old len 1 nodes }
    requires shown { Shown label.0 }
    ensures value { result ≡ tried (λ (to : ℕ). judged_by labels grids.now (tree_at code.now nodes)
        (joint_of (take len run.old) ▸ step_of label.0 (targets_of mover to
        (other_by mover (get_or run.old (len - 2) 0) (get_or run.old (len - 1) 0)))))
        label.0 (grid_of (grid_by mover (left_in grids.now) (right_in grids.now))
        (state_by mover (get_or run.old (len - 2) 0) (get_or run.old (len - 1) 0))) }
    ensures run_unchanged { run.new ≡ run.old }
{
    let states = last_states(run, len, mover);
    let trial = Trial {
        rows: rows_from(grids, mover, states.mover),
        wanted: label,
        mover,
        shown: label,
        other: states.other,
    };
    try_moves(labels, grids, code, run, len, trial, nodes)
}

// Does it hold after one of the handshakes from the last states?
#[cycle(judging)]
fn try_both(
    labels: Labels,
    grids: &[u8; 2176],
    code: &[u16; 4097],
    run: &mut [u8; 614],
    len: usize,
    nodes: usize,
) -> bool
    requires two_grids { TwoGrids grids.now }
    requires ready { Ready labels code.now run.old len 1 nodes }
    ensures value { result ≡ shaken (pairing labels) (λ (p q : ℕ).
        judged_by labels grids.now (tree_at code.now nodes)
        (joint_of (take len run.old) ▸ step_of 0 (p, q)))
        (grid_of (left_in grids.now) (get_or run.old (len - 2) 0))
        (grid_of (right_in grids.now) (get_or run.old (len - 1) 0)) }
    ensures run_unchanged { run.new ≡ run.old }
{
    let rows = rows_from(grids, Mover::Left, run[len - 2]);
    try_handshakes(labels, grids, code, run, len, rows, nodes)
}

// Does it hold after one of the handshakes of these rows of the left?
#[cycle(judging)]
fn try_handshakes(
    labels: Labels,
    grids: &[u8; 2176],
    code: &[u16; 4097],
    run: &mut [u8; 614],
    len: usize,
    rows: Rows,
    nodes: usize,
) -> bool
    requires two_grids { TwoGrids grids.now }
    requires ready { Ready labels code.now run.old len 1 nodes }
    requires inside { Inside rows.at rows.count }
    ensures value { result ≡ shaken (pairing labels) (λ (p q : ℕ).
        judged_by labels grids.now (tree_at code.now nodes)
        (joint_of (take len run.old) ▸ step_of 0 (p, q)))
        (pairs_in rows.count (drop rows.at grids.now))
        (grid_of (right_in grids.now) (get_or run.old (len - 1) 0)) }
    ensures run_unchanged { run.new ≡ run.old }
{
    if rows.count == 0 {
        return false;
    }
    let row = rows.at;
    let first = Move {
        label: Label(grids[row]),
        target: grids[row + 1],
    };
    if try_partner(labels, grids, code, run, len, first, nodes) {
        return true;
    }
    let rest = Rows {
        at: row + 2,
        count: rows.count - 1,
    };
    try_handshakes(labels, grids, code, run, len, rest, nodes)
}

// Does it hold after one of the handshakes of this move of the left?
#[cycle(judging)]
fn try_partner(
    labels: Labels,
    grids: &[u8; 2176],
    code: &[u16; 4097],
    run: &mut [u8; 614],
    len: usize,
    first: Move,
    nodes: usize,
) -> bool
    requires two_grids { TwoGrids grids.now }
    requires ready { Ready labels code.now run.old len 1 nodes }
    ensures value { result ≡ present (λ (b : ℕ). tried (λ (q : ℕ).
        judged_by labels grids.now (tree_at code.now nodes)
        (joint_of (take len run.old) ▸ step_of 0 (first.target, q)))
        b (grid_of (right_in grids.now) (get_or run.old (len - 1) 0)))
        ((pairing labels).partner first.label.0) }
    ensures run_unchanged { run.new ≡ run.old }
{
    match labels.partner(first.label) {
        Some(partner) => {
            let rows = rows_from(grids, Mover::Right, run[len - 1]);
            let trial = Trial {
                rows,
                wanted: partner,
                mover: Mover::Right,
                shown: Label::SILENT,
                other: first.target,
            };
            try_moves(labels, grids, code, run, len, trial, nodes)
        }
        None => false,
    }
}

// Does it hold after one of the steps of a trial? What they have in common is written once, and only if there is one.
// The buffer is as before when this returns.
#[cycle(judging)]
fn try_moves(
    labels: Labels,
    grids: &[u8; 2176],
    code: &[u16; 4097],
    run: &mut [u8; 614],
    len: usize,
    trial: Trial,
    nodes: usize,
) -> bool
    requires two_grids { TwoGrids grids.now }
    requires ready { Ready labels code.now run.old len 1 nodes }
    requires inside { Inside trial.rows.at trial.rows.count × (trial.rows.count ≤ 8) × Shown trial.shown.0 }
    ensures value { result ≡ tried (λ (to : ℕ). judged_by labels grids.now (tree_at code.now nodes)
        (joint_of (take len run.old)
        ▸ step_of trial.shown.0 (targets_of trial.mover to trial.other)))
        trial.wanted.0 (pairs_in trial.rows.count (drop trial.rows.at grids.now)) }
    ensures run_unchanged { run.new ≡ run.old }
{
    let rows = wanted_rows(grids, trial.rows, trial.wanted);
    if rows.count == 0 {
        return false;
    }
    let kept_label = run[len];
    let kept_left = run[len + 1];
    let kept_right = run[len + 2];
    run[len] = trial.shown.0;
    run[len + 1] = trial.other;
    run[len + 2] = trial.other;
    let place = place_by(trial.mover, len);
    let held = try_rows(
        labels,
        grids,
        code,
        run,
        len,
        rows,
        trial.wanted,
        place,
        nodes,
    );
    run[len] = kept_label;
    run[len + 1] = kept_left;
    run[len + 2] = kept_right;
    held
}

// Does it hold after one of those moves of these rows that have the wanted label, as the first one has? All of the step
// but the mover's state stands behind the run; that one is written at `place`.
#[cycle(judging)]
fn try_rows(
    labels: Labels,
    grids: &[u8; 2176],
    code: &[u16; 4097],
    run: &mut [u8; 614],
    len: usize,
    rows: Rows,
    wanted: Label,
    place: usize,
    nodes: usize,
) -> bool
    requires two_grids { TwoGrids grids.now }
    requires ready { Ready labels code.now run.old len 1 nodes }
    requires inside { Inside rows.at rows.count × (1 ≤ rows.count) × (rows.count ≤ 8)
        × (get_or grids.now rows.at 0 ≡ wanted.0) }
    requires placed { Placed place len × Shown (get_or run.old len 0) }
    ensures value { result ≡ tried (λ (to : ℕ). judged_by labels grids.now (tree_at code.now nodes)
        (joint_of (take (len + 3) (set run.old place to))))
        wanted.0 (pairs_in rows.count (drop rows.at grids.now)) }
    ensures run_unchanged { run.new ≡ run.old }
{
    let row = rows.at;
    let kept = run[place];
    run[place] = grids[row + 1];
    let held = operand(labels, grids, code, run, len + 3, nodes);
    run[place] = kept;
    if held {
        return true;
    }
    let behind = Rows {
        at: row + 2,
        count: rows.count - 1,
    };
    let rest = wanted_rows(grids, behind, wanted);
    if rest.count == 0 {
        return false;
    }
    try_rows(labels, grids, code, run, len, rest, wanted, place, nodes)
}

// Does it hold on the run with an idle more? The buffer is as before when this returns.
#[cycle(judging)]
fn stay(
    labels: Labels,
    grids: &[u8; 2176],
    code: &[u16; 4097],
    run: &mut [u8; 614],
    len: usize,
    nodes: usize,
) -> bool
    requires two_grids { TwoGrids grids.now }
    requires ready { Ready labels code.now run.old len 1 nodes }
    ensures value { result ≡ judged_by labels grids.now (tree_at code.now nodes)
        (joint_of (take len run.old)
        ▸ step_of 255 (get_or run.old (len - 2) 0, get_or run.old (len - 1) 0)) }
    ensures run_unchanged { run.new ≡ run.old }
{
    let last_left = run[len - 2];
    let last_right = run[len - 1];
    let label = run[len];
    let left = run[len + 1];
    let right = run[len + 2];
    run[len] = Label::IDLE.0;
    run[len + 1] = last_left;
    run[len + 2] = last_right;
    let held = holds(labels, grids, code, run, len + 3, nodes);
    run[len] = label;
    run[len + 1] = left;
    run[len + 2] = right;
    held
}
