// Steps of a half run, read from its bytes.
ghost use Rattle.std.specs.Prelude.{◌≡◌};
ghost use Rattle.halves.specs.Steps.{step_read};

use labels::label::Label;

#[derive(Clone, Copy)]
pub struct Move {
    pub label: Label,
    pub target: u8,
}

// A move, or an idle that keeps the state.
#[derive(Clone, Copy)]
pub enum Step {
    Move(Move),
    Idle,
}

// Step i of a half run's bytes.
#[tactic(auto, unfolding(crate::specs::Steps::step_read, crate::specs::Steps::step_struct, crate::specs::Runs::step_of))]
pub fn step_at(half: &[u8], i: usize) -> Option<Step>
    ensures { result ≡ step_read half.now i }
{
    let n = half.len();
    if n % 2 != 1 || n / 2 <= i {
        return None;
    }
    let label = Label(half[2 * i + 1]);
    if label.is_idle() {
        return Some(Step::Idle);
    }
    let target = half[2 * i + 2];
    Some(Step::Move(Move { label, target }))
}
