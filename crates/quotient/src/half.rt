// The quotient of a question by the known one of two halves.
ghost use Rattle.std.specs.Prelude.{◌≡◌, length};
ghost use Rattle.quotient.specs.Calls.{by_half, by_half_output};

use crate::check::check_by_half;
use crate::part::known_part;
use dividing::divide::divide;
use halves::side::{Side, cut};
use labels::label::Labels;
use labels::refusal::Refusal;

// Writes the quotient by the known half stopped at the point: the parts' numbers, 12, 15, 16, 17, 18.
pub fn by_half<'a>(
    labels: Labels,
    left: &'a [u8],
    right: &'a [u8],
    left_half: &'a [u8],
    right_half: &'a [u8],
    question: &[u8],
    side: Side,
    point: usize,
    out: &mut [u8],
) -> Result<usize, Refusal>
    ensures value { result ≡ by_half labels left.now right.now left_half.now
        right_half.now question.now side point (length out.old) }
    ensures out_after { out.new
        ≡ by_half_output labels left.now right.now left_half.now
        right_half.now
        question.now side point out.old }
{
    check_by_half(
        labels, left, right, left_half, right_half, question, side, point,
    )?;
    let table = known_part(left, right, side);
    let known = cut(left_half, right_half, side, point);
    divide(labels, table, known, question, out)
}
