// A line of the output: numbers and marks, one blank apart, in a lent array.
use crate::frame::wide;
use digits::decimal::put_decimal;
use labels::label::Label;
use labels::refusal::Refusal;

// Puts a byte that is wanted and fits; the place after it.
fn put(line: &mut [u8], at: usize, wanted: bool, byte: u8) -> usize {
    if !wanted {
        return at;
    }
    if line.len() <= at {
        return at;
    }
    line[at] = byte;
    at + 1
}

// Puts a mark, after a blank if it is not the first of its line.
pub(crate) fn put_mark(line: &mut [u8], at: usize, mark: u8) -> usize {
    let start = put(line, at, 0 < at, b' ');
    put(line, start, true, mark)
}

// Puts a number's digits, after a blank if it is not the first of its line.
pub(crate) fn put_number(line: &mut [u8], at: usize, n: usize) -> usize {
    let start = put(line, at, 0 < at, b' ');
    put_decimal(line, start, n)
}

// Ends the line.
pub(crate) fn put_end(line: &mut [u8], at: usize) -> usize {
    put(line, at, true, b'\n')
}

// Puts 1 or 0.
pub(crate) fn put_bool(line: &mut [u8], at: usize, holds: bool) -> usize {
    put_number(line, at, usize::from(holds))
}

// Puts a partner's number, or a dash for nobody.
pub(crate) fn put_partner(line: &mut [u8], at: usize, partner: Option<Label>) -> usize {
    match partner {
        Some(label) => put_number(line, at, wide(label.0)),
        None => put_mark(line, at, b'-'),
    }
}

// Puts a refusal's number, 0 for sound.
pub(crate) fn put_check(line: &mut [u8], at: usize, check: Result<(), Refusal>) -> usize {
    match check {
        Ok(()) => put_number(line, at, 0),
        Err(refusal) => put_number(line, at, wide(refusal.number())),
    }
}

// Puts how many bytes there are, then each of them.
pub(crate) fn put_bytes(line: &mut [u8], bytes: &[u8]) -> usize {
    let mut at = put_number(line, 0, bytes.len());
    for byte in bytes {
        at = put_number(line, at, wide(*byte));
    }
    at
}
