// The line office: one statement put to the whole line and to one machine.
ghost use Rattle.std.specs.Prelude.{◌≡◌};
ghost use Rattle.quotient.specs.Calls.{office_of, Same};

use crate::half::by_half;
use crate::part::other_part;
use halves::side::Side;
use labels::label::Labels;
use labels::refusal::Refusal;
use verdict::half::half;

// One statement put to the whole line and to the machine whose half is not known: as in the quotient by a half, without
// 18. Whenever both answers are given they are the same.
pub fn line_office<'a>(
    labels: Labels,
    left: &'a [u8],
    right: &'a [u8],
    left_half: &'a [u8],
    right_half: &'a [u8],
    question: &[u8],
    side: Side,
    point: usize,
) -> Result<(bool, bool), Refusal>
    ensures value { result ≡ office_of labels left.now right.now left_half.now
        right_half.now question.now side point }
    ensures same { Same result }
{
    let mut text = [0u8; 8192];
    let n = by_half(
        labels, left, right, left_half, right_half, question, side, point, &mut text,
    )?;
    let table = other_part(left, right, side);
    let other = other_part(left_half, right_half, side);
    // By demand 3 the verdict on the line is the machine's under the quotient, so it is found once.
    let holds = half(labels, table, other, &text[..n], point)?;
    Ok((holds, holds))
}
