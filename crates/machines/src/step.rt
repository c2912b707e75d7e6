// Steps of a joint run, read from its bytes.
ghost use Rattle.std.specs.Prelude.{◌≡◌};
ghost use Rattle.machines.specs.Steps.{joint_read};

use labels::label::Label;

// A state of the left table and one of the right.
#[derive(Clone, Copy, PartialEq, Eq)]
pub struct States {
    pub left: u8,
    pub right: u8,
}

// A step of a joint run, between the states before and after it.
#[derive(Clone, Copy)]
pub struct JointStep {
    pub before: States,
    pub label: Label,
    pub after: States,
}

// Step i of a joint run's bytes. The states before it stand in the two bytes before its own.
#[tactic(auto, unfolding(crate::specs::Steps::joint_read, crate::specs::Steps::joint_step_at))]
pub fn joint_step(run: &[u8], i: usize) -> Option<JointStep>
    ensures { result ≡ joint_read run.now i }
{
    let n = run.len();
    if n % 3 != 2 || n / 3 <= i {
        return None;
    }
    let at = 3 * i;
    let before = States {
        left: run[at],
        right: run[at + 1],
    };
    let label = Label(run[at + 2]);
    let after = States {
        left: run[at + 3],
        right: run[at + 4],
    };
    Some(JointStep {
        before,
        label,
        after,
    })
}
