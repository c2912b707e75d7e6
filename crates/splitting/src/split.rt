// The splitting of a number, written as its two halves.
ghost use Rattle.std.specs.Prelude.{◌≡◌, ◌+◌, ◌*◌, ◌/◌, ◌≤◌, ◌<◌, length};
ghost use Rattle.labels.specs.Refusals.{in_front};
ghost use Rattle.machines.specs.Working.{Tables};
ghost use Rattle.splitting.specs.Splittings.{
  splittings_of,
  left_half,
  right_half,
  check_split,
  split_of,
  left_output,
  right_output,
  half_length,
};
ghost use Rattle.splitting.specs.Working.{Log, options_of, way_of, step_meant, put_step};

use crate::count::count;
use halves::step::Step;
use labels::label::{Label, Labels};
use labels::refusal::Refusal;
use machines::step::{JointStep, joint_step};
use tables::leaving::rows_leaving;
use ways::choose::nth_way;
use ways::count::count_ways;

// Writes the halves of the splitting of a number: as in the count, then 14, then 18.
pub fn split(
    labels: Labels,
    left: &[u8],
    right: &[u8],
    run: &[u8],
    number: usize,
    left_out: &mut [u8],
    right_out: &mut [u8],
) -> Result<usize, Refusal>
    ensures value { result ≡ split_of labels left.now right.now run.now number
        (length left_out.old) (length right_out.old) }
    ensures left_out_after { left_out.new ≡ left_output labels left.now right.now
        run.now
        number left_out.old (length right_out.old) }
    ensures right_out_after { right_out.new ≡ right_output labels left.now right.now
        run.now
        number (length left_out.old) right_out.old }
{
    let left_room = left_out.len();
    let right_room = right_out.len();
    check_split(labels, left, right, run, number, left_room, right_room)?;
    write_halves(labels, left, right, run, number, left_out, right_out);
    let steps = run.len() / 3;
    Ok(2 * steps + 1)
}

// What a call judges that names a splitting by its number, and lends so much room for each half.
fn check_split(
    labels: Labels,
    left: &[u8],
    right: &[u8],
    run: &[u8],
    number: usize,
    left_room: usize,
    right_room: usize,
) -> Result<(), Refusal>
    ensures { result ≡ check_split labels left.now right.now run.now number
        left_room right_room }
{
    let splittings = count(labels, left, right, run)?;
    if splittings <= number {
        return Err(Refusal::NoSuchSplitting);
    }
    let steps = run.len() / 3;
    let len = 2 * steps + 1;
    if left_room < len || right_room < len {
        return Err(Refusal::OutputTooShort);
    }
    Ok(())
}

// Writes the halves from the last step to the first: with w ways at the last step, splitting n of the run is splitting
// n / w of the run without it, and way n % w.
fn write_halves(
    labels: Labels,
    left: &[u8],
    right: &[u8],
    run: &[u8],
    number: usize,
    left_out: &mut [u8],
    right_out: &mut [u8],
)
    requires log { Log labels left.now right.now run.now }
    requires number_in_bounds { number < length (splittings_of labels left.now right.now run.now) }
    requires run_in_bounds { (half_length run.now ≤ length left_out.old)
        × (half_length run.now ≤ length right_out.old) }
    ensures left_out_after { left_out.new ≡ in_front (left_half labels left.now right.now
        run.now number) left_out.old }
    ensures right_out_after { right_out.new ≡ in_front (right_half labels left.now
        right.now run.now number) right_out.old }
{
    let steps = run.len() / 3;
    let mut n = number;
    for i in (0..steps).rev() {
        // Each of these steps is there, so nothing is passed over.
        if let Some(step) = joint_step(run, i) {
            n = put_way(labels, left, right, step, i, n, left_out, right_out);
        }
    }
    left_out[0] = run[0];
    right_out[0] = run[1];
}

// Writes step i of each half, by the way of the joint run's step that the number says, and gives the number of the
// splitting of the run before it.
fn put_way(
    labels: Labels,
    left: &[u8],
    right: &[u8],
    step: JointStep,
    i: usize,
    n: usize,
    left_out: &mut [u8],
    right_out: &mut [u8],
) -> usize
    requires tables { Tables labels left.now right.now }
    requires nonzero { 0 < length (options_of labels left.now right.now step) }
    requires i_in_bounds { (2 * i + 2 < length left_out.old) × (2 * i + 2 < length right_out.old) }
    ensures value { result ≡ n / length (options_of labels left.now right.now step) }
    ensures left_out_after { left_out.new ≡ put_step left_out.old i step.before.left
        (way_of labels left.now right.now step n).0 }
    ensures right_out_after { right_out.new ≡ put_step right_out.old i step.before.right
        (way_of labels left.now right.now step n).1 }
{
    let before = step.before;
    let left_rows = rows_leaving(left, before.left);
    let right_rows = rows_leaving(right, before.right);
    let ways = count_ways(labels, left_rows, right_rows, step);
    let way = nth_way(labels, left_rows, right_rows, step, n % ways);
    put_step(left_out, i, before.left, way.left);
    put_step(right_out, i, before.right, way.right);
    n / ways
}

// Writes step i of a half: a move's label and target, or an idle's mark and the state that it keeps.
#[tactic(auto, unfolding(crate::specs::Working::put_step, crate::specs::Working::step_meant))]
fn put_step(out: &mut [u8], i: usize, state: u8, step: Step)
    requires { 2 * i + 2 < length out.old }
    ensures { out.new ≡ put_step out.old i state (step_meant step) }
{
    let (label, target) = match step {
        Step::Move(moved) => (moved.label, moved.target),
        Step::Idle => (Label::IDLE, state),
    };
    let at = 2 * i + 1;
    out[at] = label.0;
    out[at + 1] = target;
}
