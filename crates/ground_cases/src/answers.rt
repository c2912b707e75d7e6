// What each public function of labels, tables, halves and machines answers to a trial, as numbers of a line.
use crate::frame::wide;
use crate::line::{put_bool, put_bytes, put_check, put_mark, put_number, put_partner};
use halves::side::{Known, Side};
use halves::step::{Step, step_at};
use labels::label::{Label, Labels};
use labels::refusal::Refusal;
use tables::check::check_table;
use tables::leaving::{has_row, rows_leaving};
use tables::row::{Row, row_at};

// Is the label silent, an idle, its partner; then among these labels: the highest, is it one, its partner.
pub(crate) fn put_label(line: &mut [u8], labels: Labels, label: Label) -> usize {
    let silent = put_bool(line, 0, label.is_silent());
    let idle = put_bool(line, silent, label.is_idle());
    let partner = put_partner(line, idle, label.partner());
    let highest = put_number(line, partner, wide(labels.count()));
    let has = put_bool(line, highest, labels.has(label));
    put_partner(line, has, labels.partner(label))
}

// The partner of each byte among these labels.
pub(crate) fn put_partners(line: &mut [u8], labels: Labels) -> usize {
    let mut at = 0;
    for code in 0..=255u8 {
        at = put_partner(line, at, labels.partner(Label(code)));
    }
    at
}

// The refusal of a number of the documents; sound for any other.
fn refusal_of(n: u8) -> Result<(), Refusal> {
    match n {
        1 => Err(Refusal::Truncated),
        2 => Err(Refusal::WrongKind),
        3 => Err(Refusal::WrongLength),
        4 => Err(Refusal::TooManyPairs),
        5 => Err(Refusal::OutOfRange),
        6 => Err(Refusal::RowNotAbove),
        7 => Err(Refusal::NinthRow),
        8 => Err(Refusal::NotReal),
        9 => Err(Refusal::NotATree),
        10 => Err(Refusal::NestedTooDeep),
        11 => Err(Refusal::BytesAfter),
        12 => Err(Refusal::PointBeyond),
        13 => Err(Refusal::TooManySplittings),
        14 => Err(Refusal::NoSuchSplitting),
        15 => Err(Refusal::NotARun),
        16 => Err(Refusal::HalvesDoNotMatch),
        17 => Err(Refusal::QuotientTooLarge),
        18 => Err(Refusal::OutputTooShort),
        19 => Err(Refusal::NotOfForm),
        20 => Err(Refusal::WrongHeader),
        21 => Err(Refusal::UnknownLabel),
        _ => Ok(()),
    }
}

// The numbers of two checks, then of the one after the other.
pub(crate) fn put_then(line: &mut [u8], x: u8, y: u8) -> usize {
    let first = put_check(line, 0, refusal_of(x));
    let second = put_check(line, first, refusal_of(y));
    put_check(line, second, refusal_of(x).and(refusal_of(y)))
}

// A check's number where the labels are judged first, as in a call that takes them; then the check's own number.
pub(crate) fn put_call(line: &mut [u8], labels: Labels, check: Result<(), Refusal>) -> usize {
    let at = put_check(line, 0, labels.check().and(check));
    put_check(line, at, check)
}

// 1 and the row, or a dash where there is none.
pub(crate) fn put_row(line: &mut [u8], table: &[u8], i: usize) -> usize {
    match row_at(table, i) {
        Some(row) => put_found(line, row),
        None => put_mark(line, 0, b'-'),
    }
}

// 1, then the three bytes of a row.
fn put_found(line: &mut [u8], row: Row) -> usize {
    let found = put_number(line, 0, 1);
    let from = put_number(line, found, wide(row.from));
    let middle = put_number(line, from, wide(row.label.0));
    put_number(line, middle, wide(row.to))
}

// The rows that leave a state of a sound table; R and its number for a refused one.
pub(crate) fn put_leaving(line: &mut [u8], labels: Labels, table: &[u8], state: u8) -> usize {
    match check_table(labels, table) {
        Ok(()) => put_bytes(line, rows_leaving(table, state)),
        Err(refusal) => put_refused(line, refusal),
    }
}

// Whether a sound table has a row; R and its number for a refused one.
pub(crate) fn put_has(line: &mut [u8], labels: Labels, table: &[u8], row: Row) -> usize {
    match check_table(labels, table) {
        Ok(()) => put_bool(line, 0, has_row(table, row.from, row.label, row.to)),
        Err(refusal) => put_refused(line, refusal),
    }
}

// R, then the refusal's number.
fn put_refused(line: &mut [u8], refusal: Refusal) -> usize {
    let at = put_mark(line, 0, b'R');
    put_check(line, at, Err(refusal))
}

// 2, label and target of a move; 1 for an idle; 0 where there is no such step.
pub(crate) fn put_step(line: &mut [u8], half: &[u8], i: usize) -> usize {
    match step_at(half, i) {
        Some(step) => put_taken(line, step),
        None => put_number(line, 0, 0),
    }
}

// 2, label and target of a move; 1 for an idle.
fn put_taken(line: &mut [u8], step: Step) -> usize {
    match step {
        Step::Move(taken) => {
            let kind = put_number(line, 0, 2);
            let at = put_number(line, kind, wide(taken.label.0));
            put_number(line, at, wide(taken.target))
        }
        Step::Idle => put_number(line, 0, 1),
    }
}

// The side that a number names: 1 the left, 2 the right, any other none.
pub(crate) fn side_of(x: u8) -> Side {
    match x {
        1 => Side::Left,
        2 => Side::Right,
        _ => Side::Unnamed,
    }
}

// 1 where the left half is known, 2 where the right is.
pub(crate) fn put_known(line: &mut [u8], side: Side) -> usize {
    match side.known() {
        Known::Left => put_number(line, 0, 1),
        Known::Right => put_number(line, 0, 2),
    }
}
