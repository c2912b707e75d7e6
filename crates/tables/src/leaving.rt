// The rows that leave a state: one span of the table, found by halving.
ghost use Rattle.std.specs.Prelude.{◌≡◌, true};
ghost use Rattle.tables.specs.Tables.{rows_of, rows_from, bytes_of, table_of, among, has_move, Rising, Together};
ghost use Rattle.tables.specs.Working.{moves_in};

use crate::row::{rows, rows_in};
use labels::label::Label;

// The rows that leave a state, as the part of the table that they are: from the first that does not leave a lower state
// up to the first that leaves another. In rows that do not rise it is left open which: there, too, they are rows of the
// table that stand together, and each leaves the state.
pub fn rows_leaving<'a>(table: &'a [u8], state: u8) -> &'a [u8]
    ensures together { Together (rows_of table.now) state result.now }
    ensures exact { Rising (rows_of table.now) → result.now ≡ bytes_of (rows_from state (rows_of table.now)) }
{
    let rows = rows(table);
    let start = rows.partition_point(|row| row[0] < state);
    let behind = &rows[start..];
    let many = behind.iter().take_while(|row| row[0] == state).count();
    behind[..many].as_flattened()
}

// Is there a row from this state with this label and target? In rows that do not rise it is left open which rows are
// found: there, too, a row that is found is in the table.
pub fn has_row(table: &[u8], from: u8, label: Label, to: u8) -> bool
    ensures there { result ≡ true → has_move (table_of table.now) from label.0 to ≡ true }
    ensures exact { Rising (rows_of table.now) → result ≡ has_move (table_of table.now) from label.0 to }
{
    let rows = rows_leaving(table, from);
    leads_to(rows, label, to)
}

// Has one of these rows, whatever state it leaves, this label and target? Bytes that fill no row are none.
pub fn leads_to(rows: &[u8], label: Label, to: u8) -> bool
    ensures { result ≡ among (moves_in rows.now) label.0 to }
{
    rows_in(rows)
        .iter()
        .any(|row| Label(row[1]) == label && row[2] == to)
}
