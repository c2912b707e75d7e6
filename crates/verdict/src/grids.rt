// Tables as grids: the rows of each state stand at a place of their own, so that they are found without a search. Both
// tables' grids stand in one array, the left's, then the right's.
ghost use Rattle.std.specs.Prelude.{◌≡◌, Bool, ℕ, ◌≤◌, drop, get_or, replicate};
ghost use Rattle.hml.specs.System.{Run};
ghost use Rattle.hml.specs.Formula.{Formula, nesting};
ghost use Rattle.tables.specs.Tables.{table_of, SoundTable};
ghost use Rattle.machines.specs.Working.{Tables};
ghost use Rattle.verdict.specs.Working.{Grid, TwoGrids, Inside, pairs_in, grid_of, grid_by, start_of};
ghost use Rattle.verdict.specs.Working.{left_in, right_in, tried, judged_by, tables_hold};

use crate::trial::Mover;
use labels::label::{Label, Labels};

// The rows of both tables by the state that they leave, written into empty grids, if a formula with so many forward
// modalities looks at them at all.
pub(crate) fn look_up(
    labels: Labels,
    left: &[u8],
    right: &[u8],
    forwards: usize,
    grids: &mut [u8; 2176],
)
    requires tables { Tables labels left.now right.now }
    requires grids_value { grids.old ≡ replicate 2176 0 }
    ensures grids { TwoGrids grids.new }
    ensures same { (φ : Formula) → nesting φ ≤ forwards → (j : Run (ℕ × ℕ))
        → judged_by labels grids.new φ j
        ≡ tables_hold labels left.now right.now φ j }
{
    if forwards == 0 {
        return;
    }
    fill(labels, left, right, grids);
}

// The rows of both, whatever the formula.
fn fill(labels: Labels, left: &[u8], right: &[u8], grids: &mut [u8])
    requires tables { Tables labels left.now right.now }
    requires grids_value { grids.old ≡ replicate 2176 0 }
    ensures two_grids { TwoGrids grids.new }
    ensures by_index { (p : ℕ) → grid_of (left_in grids.new) p ≡ table_of left.now p }
    ensures by_index_2 { (p : ℕ) → grid_of (right_in grids.new) p ≡ table_of right.now p }
{
    rows_by_state(labels, left, &mut grids[..1088]);
    rows_by_state(labels, right, &mut grids[1088..]);
}

// The rows of a sound table by the state that they leave, written into an empty grid.
fn rows_by_state(labels: Labels, table: &[u8], grid: &mut [u8])
    requires sound_table { SoundTable labels table.now }
    requires grid_value { grid.old ≡ replicate 1088 0 }
    ensures grid { Grid grid.new }
    ensures by_index { (p : ℕ) → grid_of grid.new p ≡ table_of table.now p }
{
    for i in 0..table.len() / 3 {
        let at = 3 * i + 1;
        let state = 17 * (table[at] as usize);
        let count = grid[state];
        let end = state + 2 * (count as usize);
        grid[end + 1] = table[at + 1];
        grid[end + 2] = table[at + 2];
        grid[state] = count + 1;
    }
}

// Where rows begin in the grids, and how many they are.
#[derive(Clone, Copy)]
pub(crate) struct Rows {
    pub at: usize,
    pub count: usize,
}

// The rows that leave a state of the side that moves. A state beyond the grid has none.
pub(crate) fn rows_from(grids: &[u8; 2176], mover: Mover, state: u8) -> Rows
    requires { TwoGrids grids.now }
    ensures few { Inside result.at result.count × (result.count ≤ 8) }
    ensures exact { pairs_in result.count (drop result.at grids.now)
        ≡ grid_of (grid_by mover (left_in grids.now) (right_in grids.now)) state }
{
    let state = state as usize;
    if 64 <= state {
        return Rows { at: 0, count: 0 };
    }
    let place = grid_start(mover) + 17 * state;
    let count = grids[place] as usize;
    Rows {
        at: place + 1,
        count,
    }
}

// Where the grid of the side that moves begins.
fn grid_start(mover: Mover) -> usize
    ensures { result ≡ start_of mover }
{
    match mover {
        Mover::Left => 0,
        Mover::Right => 1088,
    }
}

// The rows from the first with the wanted label on; none if no row has it.
pub(crate) fn wanted_rows(grids: &[u8; 2176], rows: Rows, wanted: Label) -> Rows
    requires { Inside rows.at rows.count }
    ensures few { Inside result.at result.count × (result.count ≤ rows.count) }
    ensures same { (F : ℕ → Bool) → tried F wanted.0 (pairs_in result.count (drop result.at grids.now))
        ≡ tried F wanted.0 (pairs_in rows.count (drop rows.at grids.now)) }
    ensures first { 1 ≤ result.count → get_or grids.now result.at 0 ≡ wanted.0 }
{
    let mut at = rows.at;
    let mut count = rows.count;
    // By the rows left: a `for` over those passed takes two instructions more for each row tried, an Option three.
    while 0 < count {
        if Label(grids[at]) == wanted {
            return Rows { at, count };
        }
        at += 2;
        count -= 1;
    }
    Rows { at, count }
}
