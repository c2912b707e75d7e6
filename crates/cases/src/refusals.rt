// A small input for each number of "Who can cause a refusal" that the edges do not give (those are 13 and 17).
use crate::answers::{Asked, show_by_number};
use crate::inputs::{CASE_A, LEFT_A, NINE_LOOPS, NO_ROWS, RIGHT_A, RUN_A};
use crate::show::{first, show, show_bytes, show_end, show_number, show_refused, show_verdict};
use crate::splittings::{show_count, show_halves};
use casebook::read::read;
use halves::side::{Side, cut};
use joining::join::join;
use labels::label::Labels;
use splitting::count::count;
use std::io;
use verdict::half::half;
use verdict::joint::joint;

// Prints what reading answers.
fn show_reading(rt: &impl Print, name: &[u8], bytes: &[u8]) -> io::Result<()> {
    show(rt, name)?;
    match read(bytes) {
        Ok(_) => show(rt, b"read")?,
        Err(refusal) => show_refused(rt, refusal)?,
    }
    show_end(rt)
}

// Prints what reading answers to case A with another byte at a place.
fn show_changed(rt: &impl Print, name: &[u8], at: usize, byte: u8) -> io::Result<()> {
    if 44 <= at {
        return Ok(());
    }
    let mut bytes = CASE_A;
    bytes[at] = byte;
    show_reading(rt, name, &bytes)
}

// Case A with one byte changed, cut short, or followed by another.
pub(crate) fn show_of_casebooks(rt: &impl Print) -> io::Result<()> {
    let bytes = CASE_A;
    let longer =
        *b"\x03\0\x01\0\x02\x09\0\x02\0\x02\0\x01\x01\0\x03\x01\x09\0\x03\0\x02\0\x02\x01\0\x04\x01\x07\0\x04\0\0\0\0\x01\x01\x06\0\x05\0\x06\0\0\0\0";
    show_reading(rt, b"case A without its last byte: ", first(&bytes, 43))?;
    show_changed(rt, b"case A, first record of kind 2: ", 2, 2)?;
    show_changed(rt, b"case A, first record of length 4: ", 0, 4)?;
    show_changed(rt, b"case A, k 16: ", 4, 16)?;
    show_changed(rt, b"case A, left table of 0 states: ", 9, 0)?;
    show_changed(
        rt,
        b"case A, left table's second row equal to the first: ",
        14,
        1,
    )?;
    show_changed(rt, b"case A, left start state 2: ", 31, 2)?;
    show_changed(
        rt,
        b"case A, step by 1 to states 1 and 1, which is not real: ",
        33,
        1,
    )?;
    show_changed(rt, b"case A, operator 9: ", 40, 9)?;
    show_reading(rt, b"case A and a byte more: ", &longer)
}

// Calls on case A's machines: 10, 12 and 14.
pub(crate) fn show_of_calls(rt: &impl Print) -> io::Result<()> {
    let nested = [5u8, 0, 5, 0, 5, 0, 5, 0, 5, 0, 0, 0];
    let back = [6u8, 0, 0, 0];
    show_judged(rt, b"five nested forward by 0: ", &nested, 0)?;
    show_judged(
        rt,
        b"joint verdict at point 2 of a run of 1 step: ",
        &back,
        2,
    )?;
    show_beyond_count(rt)
}

// Prints the joint verdict on a question.
fn show_judged(rt: &impl Print, name: &[u8], question: &[u8], point: usize) -> io::Result<()> {
    let left = LEFT_A;
    let right = RIGHT_A;
    let run = RUN_A;
    show(rt, name)?;
    show_verdict(
        rt,
        joint(Labels::of_pairs(2), &left, &right, &run, question, point),
    )?;
    show_end(rt)
}

// Prints what the calls for splitting 2 answer, where there are two.
fn show_beyond_count(rt: &impl Print) -> io::Result<()> {
    let left = LEFT_A;
    let right = RIGHT_A;
    let run = RUN_A;
    let back = [6u8, 0, 0, 0];
    show(rt, b"splitting 2 of 2: ")?;
    show_halves(rt, Labels::of_pairs(2), &left, &right, &run, 2)?;
    show(rt, b"\nquotient by splitting 2 of 2: ")?;
    show_by_number(
        rt,
        Labels::of_pairs(2),
        &left,
        &right,
        &run,
        &back,
        Asked {
            point: 1,
            number: 2,
            side: Side::Right,
        },
    )?;
    show_end(rt)
}

// Calls that are given halves: 12, 15, 16 and 18.
pub(crate) fn show_of_halves(rt: &impl Print) -> io::Result<()> {
    let moved = [0u8, 1, 1];
    let answered = [0u8, 2, 1];
    let other = [0u8, 4, 1];
    let mut four = [9u8; 4];
    let mut five = [9u8; 5];
    show_cut(
        rt,
        b"cut of the half 000201 at point 2, bytes: ",
        &moved,
        &answered,
    )?;
    show_half(
        rt,
        b"left half 000201, which the left table has not: ",
        &answered,
    )?;
    show_join(
        rt,
        b"halves 000101 and 000401, joined: ",
        &moved,
        &other,
        &mut five,
    )?;
    show_join(
        rt,
        b"halves 000101 and 000201, joined, 4 bytes lent: ",
        &moved,
        &answered,
        &mut four,
    )?;
    show_join(
        rt,
        b"halves 000101 and 000201, joined, 5 bytes lent: ",
        &moved,
        &answered,
        &mut five,
    )
}

// Prints the length of the right half's cut at point 2.
fn show_cut<'a>(
    rt: &impl Print,
    name: &[u8],
    left_half: &'a [u8],
    right_half: &'a [u8],
) -> io::Result<()> {
    show(rt, name)?;
    show_number(rt, cut(left_half, right_half, Side::Right, 2).len())?;
    show_end(rt)
}

// Prints the verdict of back by 0 over true on a half of the left.
fn show_half(rt: &impl Print, name: &[u8], left_half: &[u8]) -> io::Result<()> {
    let left = LEFT_A;
    let back = [6u8, 0, 0, 0];
    show(rt, name)?;
    show_verdict(rt, half(Labels::of_pairs(2), &left, left_half, &back, 1))?;
    show_end(rt)
}

// Prints the joint run that two halves are joined to in a lent output, or the number of a refusal.
fn show_join(
    rt: &impl Print,
    name: &[u8],
    left_half: &[u8],
    right_half: &[u8],
    out: &mut [u8],
) -> io::Result<()> {
    let left = LEFT_A;
    let right = RIGHT_A;
    show(rt, name)?;
    match join(
        Labels::of_pairs(2),
        &left,
        &right,
        left_half,
        right_half,
        out,
    ) {
        Ok(n) => show_bytes(rt, first(out, n))?,
        Err(refusal) => show_refused(rt, refusal)?,
    }
    show_end(rt)
}

// 7: one state with rows of labels 0 to 8 to itself.
pub(crate) fn show_of_tables(rt: &impl Print) -> io::Result<()> {
    let nine = NINE_LOOPS;
    let still = NO_ROWS;
    let start = [0u8; 2];
    show(rt, b"nine rows from one state: ")?;
    show_count(rt, count(Labels::of_pairs(4), &nine, &still, &start))?;
    show_end(rt)
}
