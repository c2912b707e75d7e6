// Half runs as joint runs.
ghost use Rattle.std.specs.Prelude.{◌≡◌, ◌++◌, ◌+◌, ◌*◌, ◌≤◌, length, take, drop};
ghost use Rattle.verdict.specs.Working.{beside_still};

// Writes the first `steps` steps of a half run as a joint run, beside a machine that stays in state 0.
pub(crate) fn beside_still(half: &[u8], steps: usize, run: &mut [u8])
    requires { (2 * steps + 1 ≤ length half.now) × (3 * steps + 2 ≤ length run.old) }
    ensures { run.new ≡ beside_still (take (2 * steps + 1) half.now)
        ++ drop (3 * steps + 2) run.old }
{
    run[0] = half[0];
    run[1] = 0;
    for i in 0..steps {
        run[3 * i + 2] = half[2 * i + 1];
        run[3 * i + 3] = half[2 * i + 2];
        run[3 * i + 4] = 0;
    }
}
