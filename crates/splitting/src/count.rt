// How many splittings a joint run has.
ghost use Rattle.std.specs.Prelude.{◌≡◌, ◌≤◌, min, length};
ghost use Rattle.machines.specs.Working.{Tables};
ghost use Rattle.splitting.specs.Splittings.{splittings_of, check_log, count_of};
ghost use Rattle.splitting.specs.Working.{Log, options_of};

use labels::label::Labels;
use labels::refusal::Refusal;
use machines::joint::check_joint;
use machines::step::{JointStep, joint_step};
use tables::leaving::rows_leaving;
use ways::count::count_ways;

// How many splittings a joint run has: the parts' numbers, then 13.
pub fn count(labels: Labels, left: &[u8], right: &[u8], run: &[u8]) -> Result<usize, Refusal>
    ensures { result ≡ count_of labels left.now right.now run.now }
{
    check_log(labels, left, right, run)?;
    let splittings = count_splittings(labels, left, right, run);
    let too_many = 65535 < splittings;
    if too_many {
        return Err(Refusal::TooManySplittings);
    }
    Ok(splittings)
}

// The check of a log: the parts' numbers, in record order.
pub fn check_log(labels: Labels, left: &[u8], right: &[u8], run: &[u8]) -> Result<(), Refusal>
    ensures { result ≡ check_log labels left.now right.now run.now }
{
    labels.check()?;
    check_joint(labels, left, right, run)
}

// The product of the steps' ways, which stays at 65,536 once it is there.
fn count_splittings(labels: Labels, left: &[u8], right: &[u8], run: &[u8]) -> usize
    requires { Log labels left.now right.now run.now }
    ensures { result ≡ min (length (splittings_of labels left.now right.now
        run.now)) 65536 }
{
    let steps = run.len() / 3;
    let mut splittings = 1;
    for i in 0..steps {
        // Each of these steps is there, so nothing is passed over.
        if let Some(step) = joint_step(run, i) {
            splittings = (splittings * ways_of(labels, left, right, step)).min(65536);
        }
    }
    splittings
}

// How many ways a step has.
fn ways_of(labels: Labels, left: &[u8], right: &[u8], step: JointStep) -> usize
    requires { Tables labels left.now right.now }
    ensures exact { result ≡ length (options_of labels left.now right.now step) }
    ensures few { result ≤ 10 }
{
    let before = step.before;
    let left_rows = rows_leaving(left, before.left);
    let right_rows = rows_leaving(right, before.right);
    count_ways(labels, left_rows, right_rows, step)
}
