// What the quotient's calls judge before a quotient is made.
ghost use Rattle.std.specs.Prelude.{◌≡◌};
ghost use Rattle.quotient.specs.Calls.{check_by_half};
ghost use Rattle.quotient.specs.Working.{check_asked, check_asked_run, check_asked_log};

use formulas::check::check_formula;
use halves::side::{Side, cut};
use joining::join::check_halves;
use labels::label::Labels;
use labels::refusal::Refusal;
use splitting::count::check_log;
use tables::check::check_table;

// What a call judges that takes halves. Where nothing is refused each part is judged once.
pub(crate) fn check_by_half<'a>(
    labels: Labels,
    left: &[u8],
    right: &[u8],
    left_half: &'a [u8],
    right_half: &'a [u8],
    question: &[u8],
    side: Side,
    point: usize,
) -> Result<(), Refusal>
    ensures { result ≡ check_by_half labels left.now right.now left_half.now
        right_half.now question.now side point }
{
    labels.check()?;
    match check_asked(labels, left_half, right_half, question, side, point) {
        Ok(()) => check_halves(labels, left, right, left_half, right_half),
        Err(refusal) => {
            check_table(labels, left)?;
            check_table(labels, right)?;
            Err(refusal)
        }
    }
}

// The question (9, 10), then the point on the known half alone: a refused cut is an empty part (12).
fn check_asked<'a>(
    labels: Labels,
    left_half: &'a [u8],
    right_half: &'a [u8],
    question: &[u8],
    side: Side,
    point: usize,
) -> Result<(), Refusal>
    ensures { result ≡ check_asked labels left_half.now right_half.now
        question.now side point }
{
    check_formula(labels, 64, question)?;
    let known = cut(left_half, right_half, side, point);
    if known.is_empty() {
        return Err(Refusal::PointBeyond);
    }
    Ok(())
}

// What a call judges that names a splitting by its number, before the splitting does. Where nothing is refused the log
// is left to the splitting, so that it is judged once.
pub(crate) fn check_asked_log(
    labels: Labels,
    left: &[u8],
    right: &[u8],
    run: &[u8],
    question: &[u8],
    point: usize,
) -> Result<(), Refusal>
    ensures { result ≡ check_asked_log labels left.now right.now run.now
        question.now point }
{
    match check_asked_run(labels, run, question, point) {
        Ok(()) => Ok(()),
        Err(refusal) => {
            check_log(labels, left, right, run)?;
            Err(refusal)
        }
    }
}

// The question (9, 10), then the point (12).
fn check_asked_run(labels: Labels, run: &[u8], question: &[u8], point: usize) -> Result<(), Refusal>
    ensures { result ≡ check_asked_run labels run.now question.now point }
{
    check_formula(labels, 64, question)?;
    if run.len() / 3 < point {
        return Err(Refusal::PointBeyond);
    }
    Ok(())
}
