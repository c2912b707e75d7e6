// Rows of a table: three bytes each, behind the number of states.
ghost use Rattle.std.specs.Prelude.{◌≡◌, ◌<◌, length, map};
ghost use Rattle.tables.specs.Tables.{threes, rows_of, row_read, row_struct};
ghost use Rattle.tables.specs.Working.{row_of, row_bytes, triple_of};

use labels::label::Label;

// Rows are compared by from, then label, then to.
#[derive(Clone, Copy, PartialEq, Eq, PartialOrd, Ord)]
pub struct Row {
    pub from: u8,
    pub label: Label,
    pub to: u8,
}

impl From<[u8; 3]> for Row {
    ghost from_gives = { λ bytes r. bytes ≡ row_bytes (triple_of r) };

    fn from([from, label, to]: [u8; 3]) -> Row {
        Row {
            from,
            label: Label(label),
            to,
        }
    }
}

// Bytes as rows of three; bytes that fill no row are none.
pub fn rows_in(bytes: &[u8]) -> &[[u8; 3]]
    ensures { result.now ≡ map row_bytes (threes bytes.now) }
{
    let (rows, _) = bytes.as_chunks::<3>();
    rows
}

// The rows of a table.
#[tactic(auto, unfolding(crate::specs::Tables::rows_of))]
pub(crate) fn rows(table: &[u8]) -> &[[u8; 3]]
    ensures bytes { result.now ≡ map row_bytes (rows_of table.now) }
    ensures count { length result.now ≡ length (rows_of table.now) }
{
    match table.split_first() {
        Some((_, bytes)) => rows_in(bytes),
        None => &[],
    }
}

// A row by its number, from 0: any bytes have as many rows as three bytes each make behind the first.
#[tactic(auto, using(crate::proofs::Rows::row_seen), unfolding(crate::specs::Tables::row_read))]
pub fn row_at(table: &[u8], i: usize) -> Option<Row>
    ensures { result ≡ row_read table.now i }
{
    rows(table).get(i).map(|bytes| Row::from(*bytes))
}

// The row of a number that the table has.
#[tactic(auto, using(crate::proofs::Rows::row_seen))]
pub(crate) fn row_of(table: &[u8], i: usize) -> Row
    requires { i < length (rows_of table.now) }
    ensures { result ≡ row_struct (row_of table.now i) }
{
    Row::from(rows(table)[i])
}
