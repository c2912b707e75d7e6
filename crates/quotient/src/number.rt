// The quotient of a question by the known half of the splitting of a number.
ghost use Rattle.std.specs.Prelude.{◌≡◌, length};
ghost use Rattle.machines.specs.Cases.{case_with};
ghost use Rattle.quotient.specs.Calls.{by_number, by_number_output};

use crate::check::check_asked_log;
use crate::part::known_part;
use dividing::divide::divide;
use halves::side::{Side, cut};
use labels::label::Labels;
use labels::refusal::Refusal;
use splitting::split::split;

// Writes the quotient by the known half, stopped at the point, of the splitting of a number: the parts' numbers, 12,
// 13, 14, 17, 18.
pub fn by_number<'a>(
    labels: Labels,
    left: &'a [u8],
    right: &'a [u8],
    run: &[u8],
    question: &[u8],
    number: usize,
    side: Side,
    point: usize,
    out: &mut [u8],
) -> Result<usize, Refusal>
    ensures value { result ≡ by_number
        (case_with labels left.now right.now run.now question.now)
        number side point (length out.old) }
    ensures out_after { out.new
        ≡ by_number_output
        (case_with labels left.now right.now run.now question.now)
        number side point out.old }
{
    labels.check()?;
    check_asked_log(labels, left, right, run, question, point)?;
    let mut left_half = [0u8; 401];
    let mut right_half = [0u8; 401];
    let n = split(
        labels,
        left,
        right,
        run,
        number,
        &mut left_half,
        &mut right_half,
    )?;
    let table = known_part(left, right, side);
    let known = cut(&left_half[..n], &right_half[..n], side, point);
    divide(labels, table, known, question, out)
}
