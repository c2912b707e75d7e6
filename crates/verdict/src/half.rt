// Verdicts on half runs: a half run is a joint run beside a machine of one state and no rows.
ghost use Rattle.std.specs.Prelude.{◌≡◌, Ok};
ghost use Rattle.labels.specs.Labels.{check_labels};
ghost use Rattle.labels.specs.Refusals.{refused_if};
ghost use Rattle.labels.specs.declared.refusal.Refusal.TheVariants.{PointBeyond};
ghost use Rattle.halves.specs.Cuts.{beyond};
ghost use Rattle.verdict.specs.Verdicts.{half_verdict, check_half_call};

use crate::answer::verdict_on;
use crate::beside::beside_still;
use formulas::check::check_formula;
use halves::half::check_half;
use labels::label::Labels;
use labels::refusal::Refusal;
use tables::check::check_table;

// A table of one state and no rows.
const STILL: [u8; 1] = [1];

// The verdict on a half run stopped at a point. The labels are judged first, before all else.
pub fn half(
    labels: Labels,
    table: &[u8],
    half: &[u8],
    formula: &[u8],
    point: usize,
) -> Result<bool, Refusal>
    ensures { result ≡ half_verdict labels table.now half.now formula.now point }
{
    labels.check()?;
    judged_half(labels, table, half, formula, point)
}

// The same for labels that no check refuses. The run is copied once, into a buffer with room for four steps more.
fn judged_half(
    labels: Labels,
    table: &[u8],
    half: &[u8],
    formula: &[u8],
    point: usize,
) -> Result<bool, Refusal>
    requires { check_labels labels ≡ Ok tt }
    ensures { result ≡ half_verdict labels table.now half.now formula.now point }
{
    check_half_call(labels, table, half, formula, point)?;
    let mut buffer = [0u8; 614];
    beside_still(half, point, &mut buffer);
    verdict_on(labels, table, &STILL, &mut buffer, 3 * point + 2, formula)
}

// What a half call judges after its labels. The half's check judges the table too: only where it refuses is the table
// judged alone, and before formula and point, as the call's order has it.
fn check_half_call(
    labels: Labels,
    table: &[u8],
    half: &[u8],
    formula: &[u8],
    point: usize,
) -> Result<(), Refusal>
    requires { check_labels labels ≡ Ok tt }
    ensures { result ≡ check_half_call labels
        table.now half.now formula.now point }
{
    let run = check_half(labels, table, half);
    if run.is_err() {
        check_table(labels, table)?;
    }
    check_formula(labels, 4096, formula)?;
    check_point(half, point)?;
    run
}

// 12: a half of even length has no points.
fn check_point(half: &[u8], point: usize) -> Result<(), Refusal>
    ensures { result ≡ refused_if (beyond half.now point) PointBeyond }
{
    if is_beyond(half, point) {
        return Err(Refusal::PointBeyond);
    }
    Ok(())
}

// Is the point beyond the half?
fn is_beyond(half: &[u8], point: usize) -> bool
    ensures { result ≡ beyond half.now point }
{
    half.len() % 2 == 0 || half.len() / 2 < point
}
