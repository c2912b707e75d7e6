// Verdicts on joint runs.
ghost use Rattle.std.specs.Prelude.{◌≡◌, Ok};
ghost use Rattle.labels.specs.Labels.{check_labels};
ghost use Rattle.verdict.specs.Verdicts.{joint_verdict, check_joint_call};

use crate::answer::verdict_on;
use formulas::check::check_formula;
use labels::copying::copy;
use labels::label::Labels;
use labels::refusal::Refusal;
use machines::joint::check_joint;

// The verdict on a joint run stopped at a point. The labels are judged first, before all else. What follows is called in
// two places, with its slices made anew, only so that the compiler keeps it a function of its own and hands it the slices
// late: labels that are refused are answered before any of that is done.
pub fn joint(
    labels: Labels,
    left: &[u8],
    right: &[u8],
    run: &[u8],
    formula: &[u8],
    point: usize,
) -> Result<bool, Refusal>
    ensures { result ≡ joint_verdict labels
        left.now right.now run.now formula.now point }
{
    labels.check()?;
    if point == 0 {
        return judged_joint(
            labels,
            &left[..left.len()],
            &right[..right.len()],
            &run[..run.len()],
            &formula[..formula.len()],
            0,
        );
    }
    judged_joint(
        labels,
        &left[..left.len()],
        &right[..right.len()],
        &run[..run.len()],
        &formula[..formula.len()],
        point,
    )
}

// The same for labels that no check refuses. The run is copied once, into a buffer with room for four steps more.
fn judged_joint(
    labels: Labels,
    left: &[u8],
    right: &[u8],
    run: &[u8],
    formula: &[u8],
    point: usize,
) -> Result<bool, Refusal>
    requires { check_labels labels ≡ Ok tt }
    ensures { result ≡ joint_verdict labels
        left.now right.now run.now formula.now point }
{
    check_joint_call(labels, left, right, run, formula, point)?;
    let len = 3 * point + 2;
    let mut buffer = [0u8; 614];
    copy(&run[..len], &mut buffer);
    verdict_on(labels, left, right, &mut buffer, len, formula)
}

// What a joint call judges after its labels, in order.
fn check_joint_call(
    labels: Labels,
    left: &[u8],
    right: &[u8],
    run: &[u8],
    formula: &[u8],
    point: usize,
) -> Result<(), Refusal>
    requires { check_labels labels ≡ Ok tt }
    ensures { result ≡ check_joint_call labels
        left.now right.now run.now formula.now point }
{
    check_joint(labels, left, right, run)?;
    check_formula(labels, 4096, formula)?;
    if run.len() / 3 < point {
        return Err(Refusal::PointBeyond);
    }
    Ok(())
}
