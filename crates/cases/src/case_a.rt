// Case A, whole, and the questions of document 01 on its machines; then those on machines of one state each.
use crate::answers::{Asked, show_asked};
use crate::inputs::{CASE_A, LOOPS};
use crate::show::{first, output, show, show_end, show_number, show_refused};
use crate::splittings::{show_log_count, show_log_halves};
use casebook::read::{Parts, read};
use casebook::write::write;
use halves::side::Side;
use records::record::Record;
use std::io;

// Prints where the parts of case A lie, and what they are written back to.
pub(crate) fn show_records(rt: &impl Print) -> io::Result<()> {
    let bytes = CASE_A;
    match read(&bytes) {
        Ok(parts) => show_parts(rt, &bytes, parts),
        Err(refusal) => show_refused(rt, refusal),
    }
}

// Prints k, where each other part lies, and whether writing gives back what was read.
fn show_parts(rt: &impl Print, bytes: &[u8], parts: Parts) -> io::Result<()> {
    show(rt, b"case A, k: ")?;
    let labels = parts.labels(bytes);
    show_number(rt, labels.pairs as usize)?;
    show_place(rt, b"\ncase A, left table: ", parts.left)?;
    show_place(rt, b"\ncase A, right table: ", parts.right)?;
    show_place(rt, b"\ncase A, joint run: ", parts.run)?;
    show_place(rt, b"\ncase A, question: ", parts.question)?;
    show(rt, b"\ncase A, written back: ")?;
    show_written(rt, bytes, parts)?;
    show_end(rt)
}

// Prints where a record's body lies.
fn show_place(rt: &impl Print, name: &[u8], record: Record) -> io::Result<()> {
    show(rt, name)?;
    show_number(rt, record.len)?;
    show(rt, b" bytes from ")?;
    show_number(rt, record.start)
}

// Prints how many bytes the parts are written to, and whether they are those that were read.
fn show_written(rt: &impl Print, bytes: &[u8], parts: Parts) -> io::Result<()> {
    let left = parts.left.body(bytes);
    let right = parts.right.body(bytes);
    let run = parts.run.body(bytes);
    let question = parts.question.body(bytes);
    let mut out = output();
    match write(parts.labels(bytes), left, right, run, question, &mut out) {
        Ok(n) => {
            show_number(rt, n)?;
            if first(&out, n) == bytes {
                return show(rt, b" bytes, those that were read");
            }
            show(rt, b" bytes, others than were read")
        }
        Err(refusal) => show_refused(rt, refusal),
    }
}

// Prints the splittings of case A's log.
pub(crate) fn show_splittings(rt: &impl Print) -> io::Result<()> {
    let bytes = CASE_A;
    show(rt, b"case A, splittings: ")?;
    show_log_count(rt, &bytes)?;
    show(rt, b"\ncase A, splitting 0: ")?;
    show_log_halves(rt, &bytes, 0)?;
    show(rt, b"\ncase A, splitting 1: ")?;
    show_log_halves(rt, &bytes, 1)?;
    show_end(rt)
}

// Prints the answers to the questions of document 01, by either half.
pub(crate) fn show_questions(rt: &impl Print) -> io::Result<()> {
    show_on_a(rt, b"back by 0 over true", 6, 0, 0, 0)?;
    show_on_a(rt, b"back by 0 over true", 6, 0, 0, 1)?;
    show_on_a(rt, b"back by 0 over true", 6, 0, 1, 0)?;
    show_on_a(rt, b"back by 0 over true", 6, 0, 1, 1)?;
    show_on_a(rt, b"back by 1 over true", 6, 1, 1, 0)?;
    show_on_a(rt, b"back by 1 over true", 6, 1, 1, 1)?;
    show_on_a(rt, b"forward by 0 over true", 5, 0, 0, 0)?;
    show_on_a(rt, b"forward by 2 over true", 5, 2, 0, 0)?;
    show_unnamed(rt)?;
    show_on_loops(rt, 0)?;
    show_on_loops(rt, 1)
}

// Prints the answers to a question of two nodes on case A's machines: an operator and its label over true.
fn show_on_a(
    rt: &impl Print,
    name: &[u8],
    operator: u8,
    label: u8,
    point: usize,
    number: usize,
) -> io::Result<()> {
    let mut bytes = CASE_A;
    bytes[40] = operator;
    bytes[41] = label;
    show_sides(rt, name, &bytes, point, number)
}

// Prints the answers of a splitting on machines of one state each.
fn show_on_loops(rt: &impl Print, number: usize) -> io::Result<()> {
    let bytes = LOOPS;
    show_sides(
        rt,
        b"one state each, back by 1 over true",
        &bytes,
        1,
        number,
    )
}

// Prints the answers of case A where no side is named.
fn show_unnamed(rt: &impl Print) -> io::Result<()> {
    let bytes = CASE_A;
    show_side(rt, b"back by 0 over true", &bytes, 1, 0, Side::Unnamed)
}

// Prints the answers to a question with the right half known, then the left.
fn show_sides(
    rt: &impl Print,
    name: &[u8],
    bytes: &[u8],
    point: usize,
    number: usize,
) -> io::Result<()> {
    show_side(rt, name, bytes, point, number, Side::Right)?;
    show_side(rt, name, bytes, point, number, Side::Left)
}

// Prints a question, a point, the number of a splitting and the known side, then the answers.
fn show_side(
    rt: &impl Print,
    name: &[u8],
    bytes: &[u8],
    point: usize,
    number: usize,
    side: Side,
) -> io::Result<()> {
    show(rt, name)?;
    show(rt, b", point ")?;
    show_number(rt, point)?;
    show(rt, b", splitting ")?;
    show_number(rt, number)?;
    match side {
        Side::Unnamed => show(rt, b", known side unnamed: ")?,
        Side::Left => show(rt, b", known side left: ")?,
        Side::Right => show(rt, b", known side right: ")?,
    }
    show_asked(
        rt,
        bytes,
        Asked {
            point,
            number,
            side,
        },
    )
}
