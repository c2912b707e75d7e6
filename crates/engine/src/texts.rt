// Aldebaran texts for C and Rust: read into a table and its first state, and written.
ghost use Rattle.std.specs.Prelude.{◌≡◌, length};
ghost use Rattle.aldebaran.specs.Reading.{read_of, table_output, table_answer};
ghost use Rattle.aldebaran_writing.specs.Writing.{write_of, text_output, text_answer};
ghost use Rattle.engine.specs.Answers.{packed, only, table_told};

use crate::{refused, value};
use aldebaran::read::read;
use aldebaran_writing::write::write;

// Reads a text and writes its table: value first state * 65536 + the table's length.
#[unsafe(no_mangle)]
pub extern "C" fn yenuslap_aldebaran_read(text: &[u8], table_out: &mut [u8]) -> u64
    ensures value { result ≡ packed table_told (table_answer
        (read_of text.now (length table_out.old))) }
    ensures table_out_after { table_out.new ≡ table_output text.now table_out.old }
{
    match read(text, table_out) {
        Ok(table) => table.first as u64 * 65536 + table.len as u64,
        Err(refusal) => refused(refusal),
    }
}

// Writes the text of a table and its first state: value bytes written.
#[unsafe(no_mangle)]
pub extern "C" fn yenuslap_aldebaran_write(table: &[u8], first: usize, out: &mut [u8]) -> u64
    ensures value { result ≡ packed only (text_answer
        (write_of table.now first (length out.old))) }
    ensures out_after { out.new ≡ text_output table.now first out.old }
{
    value(write(table, first, out))
}
