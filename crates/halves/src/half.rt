// Half runs: the check against a table.
ghost use Rattle.std.specs.Prelude.{◌≡◌};
ghost use Rattle.tables.specs.Tables.{rows_of, table_of, Rising};
ghost use Rattle.tables.specs.Working.{Ready};
ghost use Rattle.halves.specs.Halves.{is_half_run, check_table_and_half};
ghost use Rattle.halves.specs.Working.{read_fits};

use crate::step::{Step, step_at};
use labels::label::Labels;
use labels::refusal::Refusal;
use tables::check::check_table;
use tables::leaving::has_row;

// The check of a table and of a half run of it: the table's numbers, then 15.
pub fn check_half(labels: Labels, table: &[u8], half: &[u8]) -> Result<(), Refusal>
    ensures { result ≡ check_table_and_half labels table.now half.now }
{
    check_table(labels, table)?;
    if is_half_run(table, half) {
        Ok(())
    } else {
        Err(Refusal::NotARun)
    }
}

// 15, for a table that no check refuses.
#[tactic(auto, using(crate::proofs::Steps::step_found))]
fn is_half_run(table: &[u8], half: &[u8]) -> bool
    requires { Ready table.now }
    ensures { result ≡ is_half_run table.now half.now }
{
    let n = half.len();
    if n % 2 != 1 || 401 < n || table[0] <= half[0] {
        return false;
    }
    // Counted by hand, since `step_at` says where the steps end: a `for` would have an arm that is never taken.
    let mut i = 0;
    while let Some(step) = step_at(half, i) {
        if !step_fits(table, half[2 * i], step, half[2 * i + 2]) {
            return false;
        }
        i += 1;
    }
    true
}

// Is a step from a state, written with this state after it, an idle that keeps the state, or a move of the table?
#[tactic(auto, unfolding(crate::specs::Working::read_fits))]
fn step_fits(table: &[u8], from: u8, step: Step, to: u8) -> bool
    requires { Rising (rows_of table.now) }
    ensures { result ≡ read_fits (table_of table.now) from step to }
{
    match step {
        Step::Move(moved) => has_row(table, from, moved.label, moved.target),
        Step::Idle => to == from,
    }
}
