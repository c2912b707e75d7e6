// Which operators go on with the run at hand or with a shorter one, and whether a back modality fits a run's last step.
ghost use Rattle.std.specs.Prelude.{◌≡◌, ◌≤◌};
ghost use Rattle.verdict.specs.Working.{goes_on, steps_back};

use formulas::node::{is_back, is_connective};
use labels::label::Label;

// Does a verdict go on in its loop with this operator: "not", "and" or "or" on the run at hand, or a back modality on
// the one without its last step?
pub(crate) fn goes_on(operator: u8) -> bool
    ensures { result ≡ goes_on operator }
{
    is_connective(operator) || is_back(operator)
}

// Does the run in the first len bytes end in a step that a back modality, by its operator and label, fits?
pub(crate) fn steps_back(run: &[u8; 614], len: usize, operator: u8, label: u8) -> bool
    requires { len ≤ 614 }
    ensures { result ≡ steps_back operator label run.now len }
{
    if len < 5 {
        return false;
    }
    let last = Label(run[len - 3]);
    if operator == 8 {
        return last.is_idle();
    }
    last == Label(label)
}
