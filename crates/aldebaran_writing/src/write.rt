// Writing a table and its first state as an Aldebaran text.
ghost use Rattle.std.specs.Prelude.{◌≡◌, ◌+◌, ◌≤◌, ◌<◌, length, get_or};
ghost use Rattle.digits.specs.Outputs.{put_at};
ghost use Rattle.tables.specs.Tables.{states_of, rows_of, SoundTable};
ghost use Rattle.tables.specs.Working.{triple_of};
ghost use Rattle.aldebaran_form.specs.Forms.{header_with, header_line, row_line, ended, spelled, fifteen};
ghost use Rattle.aldebaran_writing.specs.Writing.{line_of, text_of, write_of, text_output};

use digits::decimal::put_decimal;
use labels::copying::copy;
use labels::label::{Label, Labels};
use labels::refusal::Refusal;
use tables::check::check_table;
use tables::row::{Row, row_at};

// Writes the text of a table and its first state; nothing if it is refused.
pub fn write(table: &[u8], first: usize, out: &mut [u8]) -> Result<usize, Refusal>
    ensures value { result ≡ write_of table.now first (length out.old) }
    ensures out_after { out.new ≡ text_output table.now first out.old }
{
    check_table(Labels::of_pairs(15), table)?;
    if table[0] as usize <= first {
        return Err(Refusal::WrongHeader);
    }
    let mut text = [0u8; 7696];
    let len = put_text(&mut text, table, first);
    if out.len() < len {
        return Err(Refusal::OutputTooShort);
    }
    copy(&text[..len], out);
    Ok(len)
}

// Writes the whole text at the front of an array in which every text has room, and gives its length.
fn put_text(text: &mut [u8; 7696], table: &[u8], first: usize) -> usize
    requires { SoundTable fifteen table.now × (first < states_of table.now) }
    ensures value { result ≡ length (text_of table.now first) }
    ensures text_after { text.new ≡ put_at text.old 0 (text_of table.now first) }
{
    let rows = (table.len() - 1) / 3;
    let mut at = put_header(text, first, rows, table[0] as usize);
    for i in 0..rows {
        at = put_row_at(text, at, table, i);
    }
    at
}

// Writes the line of a table's row at a place, and gives the place behind it.
fn put_row_at(out: &mut [u8], at: usize, table: &[u8], i: usize) -> usize
    requires i_in_bounds { i < length (rows_of table.now) }
    requires i_in_bounds_2 { at + length (ended (row_line (line_of (get_or (rows_of table.now) i (0, 0, 0))))) ≤ length out.old }
    ensures value { result ≡ at + length (ended (row_line (line_of (get_or (rows_of table.now) i (0, 0, 0))))) }
    ensures out_after { out.new
        ≡ put_at out.old at (ended (row_line (line_of (get_or (rows_of table.now) i (0, 0, 0))))) }
{
    match row_at(table, i) {
        Some(row) => put_row(out, at, row),
        None => at,
    }
}

// Writes the header's line, and gives the place behind it.
fn put_header(out: &mut [u8], first: usize, rows: usize, states: usize) -> usize
    requires { length (ended (header_line (header_with first rows states))) ≤ length out.old }
    ensures value { result ≡ length (ended (header_line (header_with first rows states))) }
    ensures out_after { out.new
        ≡ put_at out.old 0 (ended (header_line (header_with first rows states))) }
{
    out[0] = 100;
    out[1] = 101;
    out[2] = 115;
    out[3] = 32;
    out[4] = 40;
    let second = put_decimal(out, 5, first);
    out[second] = 44;
    let third = put_decimal(out, second + 1, rows);
    out[third] = 44;
    let end = put_decimal(out, third + 1, states);
    out[end] = 41;
    out[end + 1] = 10;
    end + 2
}

// Writes a row's line at a place, and gives the place behind it.
fn put_row(out: &mut [u8], at: usize, row: Row) -> usize
    requires { at + length (ended (row_line (line_of (triple_of row)))) ≤ length out.old }
    ensures value { result ≡ at + length (ended (row_line (line_of (triple_of row)))) }
    ensures out_after { out.new ≡ put_at out.old at (ended (row_line (line_of (triple_of row)))) }
{
    out[at] = 40;
    let from = put_decimal(out, at + 1, row.from as usize);
    out[from] = 44;
    out[from + 1] = 34;
    let label = put_label(out, from + 2, row.label);
    out[label] = 34;
    out[label + 1] = 44;
    let to = put_decimal(out, label + 2, row.to as usize);
    out[to] = 41;
    out[to + 1] = 10;
    to + 2
}

// Writes a label as it is spelled at a place, and gives the place behind it.
fn put_label(out: &mut [u8], at: usize, label: Label) -> usize
    requires { at + length (spelled label.0) ≤ length out.old }
    ensures value { result ≡ at + length (spelled label.0) }
    ensures out_after { out.new ≡ put_at out.old at (spelled label.0) }
{
    let code = label.0 as usize;
    if code == 0 {
        out[at] = b'i';
        return at + 1;
    }
    out[at] = 97;
    let end = put_decimal(out, at + 1, (code - 1) / 2 + 1);
    if code % 2 == 1 {
        out[end] = 33;
        return end + 1;
    }
    out[end] = 63;
    end + 1
}
