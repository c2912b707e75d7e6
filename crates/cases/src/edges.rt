// The cases at the edges: quotients just below and above 4,096 nodes, splittings just below and above 65,535.
use crate::answers::{show_office, show_quotient};
use crate::inputs::{
    EIGHT_LOOPS, NO_ROWS, ONE_LOOP, OVER_THREE_NOTS, OVER_TWO_NOTS, SIXTEEN_IDLES, SIXTEEN_MOVES,
    TWO_WAY_RUN,
};
use crate::show::{checksum, first, output, show, show_end, show_number, show_refused};
use crate::splittings::{show_count, show_halves, show_joined};
use halves::side::Side;
use labels::label::Labels;
use labels::refusal::Refusal;
use quotient::half::by_half;
use quotient::line::line_office;
use quotient::number::by_number;
use splitting::count::count;
use std::io;

// Prints the sizes of the two large quotients, for outputs of several lengths.
pub(crate) fn show_sizes(rt: &impl Print) -> io::Result<()> {
    let given = OVER_TWO_NOTS;
    let refused = OVER_THREE_NOTS;
    show_size(
        rt,
        b"three nested forward by 0 over not not true: ",
        &given,
        8192,
    )?;
    show_size(rt, b"the same, 7468 bytes lent: ", &given, 7468)?;
    show_size(rt, b"the same, 7467 bytes lent: ", &given, 7467)?;
    show_size_by_number(rt, b"the same, by number: ", &given)?;
    show_office_at(rt, b"the same, line office: ", &given)?;
    show_size(
        rt,
        b"three nested forward by 0 over not not not true: ",
        &refused,
        8192,
    )?;
    show_size(rt, b"the same, nothing lent: ", &refused, 0)?;
    show_size_by_number(rt, b"the same, by number: ", &refused)?;
    show_office_at(rt, b"the same, line office: ", &refused)
}

// Prints the size of a quotient where so many bytes are lent, all 9.
fn show_size(rt: &impl Print, name: &[u8], question: &[u8], room: usize) -> io::Result<()> {
    let mut out = output();
    if 8192 < room {
        return Ok(());
    }
    show(rt, name)?;
    show_size_in(rt, question, &mut out[..room])
}

// Prints how many nodes a quotient by the eight loops' run of no steps has, and a checksum of the lent bytes afterwards.
fn show_size_in(rt: &impl Print, question: &[u8], out: &mut [u8]) -> io::Result<()> {
    let left = NO_ROWS;
    let right = EIGHT_LOOPS;
    let start = [0u8; 1];
    let found = by_half(
        Labels::of_pairs(4),
        &left,
        &right,
        &start,
        &start,
        question,
        Side::Right,
        0,
        out,
    );
    show_nodes(rt, found)?;
    show(rt, b", checksum of the output ")?;
    show_number(rt, checksum(out))?;
    show_end(rt)
}

// The same by the number of the log's one splitting.
fn show_size_by_number(rt: &impl Print, name: &[u8], question: &[u8]) -> io::Result<()> {
    show(rt, name)?;
    let left = NO_ROWS;
    let right = EIGHT_LOOPS;
    let start = [0u8; 2];
    let mut out = output();
    let found = by_number(
        Labels::of_pairs(4),
        &left,
        &right,
        &start,
        question,
        0,
        Side::Right,
        0,
        &mut out,
    );
    show_nodes(rt, found)?;
    show_end(rt)
}

// The line office's two verdicts on the same.
fn show_office_at(rt: &impl Print, name: &[u8], question: &[u8]) -> io::Result<()> {
    show(rt, name)?;
    let left = NO_ROWS;
    let right = EIGHT_LOOPS;
    let start = [0u8; 1];
    show_office(
        rt,
        line_office(
            Labels::of_pairs(4),
            &left,
            &right,
            &start,
            &start,
            question,
            Side::Right,
            0,
        ),
    )?;
    show_end(rt)
}

// Prints a quotient's nodes, or the number of a refusal.
fn show_nodes(rt: &impl Print, quotient: Result<usize, Refusal>) -> io::Result<()> {
    match quotient {
        Ok(n) => {
            show_number(rt, n / 2)?;
            show(rt, b" nodes")
        }
        Err(refusal) => show_refused(rt, refusal),
    }
}

// Prints how many splittings a run has of 0, 15 and 16 two-way steps, and what is had of them by number and by halves.
pub(crate) fn show_counts(rt: &impl Print) -> io::Result<()> {
    show_two_way_count(rt, b"run of 0 steps, splittings: ", 0)?;
    show_two_way_halves(rt, b"run of 0 steps, splitting 0: ", 0, 0)?;
    show_two_way_count(rt, b"15 two-way steps, splittings: ", 15)?;
    show_two_way_halves(rt, b"15 two-way steps, splitting 32767: ", 15, 32767)?;
    show_two_way_count(rt, b"16 two-way steps, splittings: ", 16)?;
    show_two_way_halves(rt, b"16 two-way steps, splitting 0: ", 16, 0)?;
    show_joined_halves(rt, b"16 two-way steps, joined from halves: ")?;
    show_back_by_halves(rt, b"16 two-way steps, back by 1 over true, by halves: ")
}

// Prints how many splittings a run of so many two-way steps has.
fn show_two_way_count(rt: &impl Print, name: &[u8], steps: u8) -> io::Result<()> {
    let table = ONE_LOOP;
    let run = TWO_WAY_RUN;
    show(rt, name)?;
    show_count(
        rt,
        count(
            Labels::of_pairs(1),
            &table,
            &table,
            first(&run, length_of(steps)),
        ),
    )?;
    show_end(rt)
}

// Prints the halves of a splitting of such a run.
fn show_two_way_halves(rt: &impl Print, name: &[u8], steps: u8, number: usize) -> io::Result<()> {
    let table = ONE_LOOP;
    let run = TWO_WAY_RUN;
    show(rt, name)?;
    show_halves(
        rt,
        Labels::of_pairs(1),
        &table,
        &table,
        first(&run, length_of(steps)),
        number,
    )?;
    show_end(rt)
}

// The length of a joint run in bytes.
fn length_of(steps: u8) -> usize {
    2 + 3 * steps as usize
}

// Prints what 16 loops of the left and 16 idles of the right are joined to.
fn show_joined_halves(rt: &impl Print, name: &[u8]) -> io::Result<()> {
    let table = ONE_LOOP;
    let left_half = SIXTEEN_MOVES;
    let right_half = SIXTEEN_IDLES;
    show(rt, name)?;
    show_joined(
        rt,
        Labels::of_pairs(1),
        &table,
        &table,
        &left_half,
        &right_half,
    )?;
    show_end(rt)
}

// Prints the quotient of back by 1 over true by the right one of these halves.
fn show_back_by_halves(rt: &impl Print, name: &[u8]) -> io::Result<()> {
    let table = ONE_LOOP;
    let left_half = SIXTEEN_MOVES;
    let right_half = SIXTEEN_IDLES;
    let question = [6u8, 1, 0, 0];
    let mut out = [0u8; 128];
    show(rt, name)?;
    let found = by_half(
        Labels::of_pairs(1),
        &table,
        &table,
        &left_half,
        &right_half,
        &question,
        Side::Right,
        16,
        &mut out,
    );
    show_quotient(rt, found, &out)?;
    show_end(rt)
}
