// The check of a table: 3, then 5 to 7 row by row.
ghost use Rattle.std.specs.Prelude.{◌≡◌, [], ◌<◌, length};
ghost use Rattle.tables.specs.Tables.{rows_of, in_range, check_rows, check_table};
ghost use Rattle.tables.specs.Working.{triple_of, judged, Counted};

use crate::row::{Row, row_of, rows};
use labels::label::Labels;
use labels::refusal::Refusal;

// 5: are the row's states and label in range?
#[tactic(auto, unfolding(crate::specs::Tables::in_range))]
fn in_range(labels: Labels, states: u8, row: Row) -> bool
    ensures { result ≡ in_range labels states (triple_of row) }
{
    row.from < states && labels.has(row.label) && row.to < states
}

// Row i after the rows before it, of which `earlier` leave the state that the last of them leaves: 5, then 6, then 7.
fn check_row(
    labels: Labels,
    states: u8,
    table: &[u8],
    i: usize,
    earlier: usize,
) -> Result<usize, Refusal>
    requires { (i < length (rows_of table.now)) × Counted table.now i earlier }
    ensures { result ≡ judged labels states table.now i }
{
    let row = row_of(table, i);
    if !in_range(labels, states, row) {
        return Err(Refusal::OutOfRange);
    }
    if i == 0 {
        return Ok(1);
    }
    let last = row_of(table, i - 1);
    if row <= last {
        return Err(Refusal::RowNotAbove);
    }
    if last.from != row.from {
        return Ok(1);
    }
    if 8 <= earlier {
        return Err(Refusal::NinthRow);
    }
    Ok(earlier + 1)
}

// Row by row: the first bad row decides.
fn check_rows(labels: Labels, states: u8, table: &[u8]) -> Result<(), Refusal>
    ensures { result ≡ check_rows labels states [] (rows_of table.now) }
{
    let mut leaving = 0;
    for i in 0..rows(table).len() {
        leaving = check_row(labels, states, table, i, leaving)?;
    }
    Ok(())
}

// The check of a table as a part: 3, then 5 to 7 row by row.
pub fn check_table(labels: Labels, table: &[u8]) -> Result<(), Refusal>
    ensures { result ≡ check_table labels table.now }
{
    let n = table.len();
    if n % 3 != 1 || 1537 < n {
        return Err(Refusal::WrongLength);
    }
    let states = table[0];
    if states == 0 || 64 < states {
        return Err(Refusal::OutOfRange);
    }
    check_rows(labels, states, table)
}
