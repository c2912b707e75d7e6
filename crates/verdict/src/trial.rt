// Moves of one side, and where they are written.
ghost use Rattle.std.specs.Prelude.{◌≡◌, ◌≤◌, ◌-◌, get_or};
ghost use Rattle.verdict.specs.Working.{place_of, state_by, other_by};

use crate::grids::Rows;
use labels::label::Label;

// The side that moves by a row: one of the two, as is the side whose half is known.
pub(crate) use halves::side::Known as Mover;

// What a forward modality tries: the rows of a state, of them those with the wanted label, the side that moves by them,
// the label that their steps show, and the state of the other side after them.
#[derive(Clone, Copy)]
pub(crate) struct Trial {
    pub rows: Rows,
    pub wanted: Label,
    pub mover: Mover,
    pub shown: Label,
    pub other: u8,
}

// Where the mover's state stands in a step that is written from `len` on.
pub(crate) fn place_by(mover: Mover, len: usize) -> usize
    requires { len ≤ 614 }
    ensures { result ≡ place_of mover len }
{
    match mover {
        Mover::Left => len + 1,
        Mover::Right => len + 2,
    }
}

// The last states of a run: the mover's, and the other side's.
#[derive(Clone, Copy)]
pub(crate) struct States {
    pub mover: u8,
    pub other: u8,
}

// The last states of the run in the first len bytes.
pub(crate) fn last_states(run: &[u8; 614], len: usize, mover: Mover) -> States
    requires { (2 ≤ len) × (len ≤ 614) }
    ensures mover { result.mover ≡ state_by mover (get_or run.now (len - 2) 0) (get_or run.now (len - 1) 0) }
    ensures other { result.other ≡ other_by mover (get_or run.now (len - 2) 0) (get_or run.now (len - 1) 0) }
{
    let left = run[len - 2];
    let right = run[len - 1];
    match mover {
        Mover::Left => States {
            mover: left,
            other: right,
        },
        Mover::Right => States {
            mover: right,
            other: left,
        },
    }
}
