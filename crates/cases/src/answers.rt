// One case: what the calls answer to the question of a casebook, for a point, a splitting of its log and a known side.
use crate::show::{
    first, half_output, output, show, show_bytes, show_end, show_refused, show_truth, show_verdict,
};
use casebook::read::{Parts, read};
use halves::side::{Known, Side, cut};
use labels::label::Labels;
use labels::refusal::Refusal;
use quotient::half::by_half;
use quotient::line::line_office;
use quotient::number::by_number;
use splitting::split::split;
use std::io;
use verdict::half::half;
use verdict::joint::joint;

// What a caller asks for: a point, the number of a splitting, the known side.
#[derive(Clone, Copy)]
pub struct Asked {
    pub point: usize,
    pub number: usize,
    pub side: Side,
}

// Prints what the calls answer to the question of a casebook.
pub(crate) fn show_asked(rt: &impl Print, bytes: &[u8], asked: Asked) -> io::Result<()> {
    match read(bytes) {
        Ok(parts) => show_split(rt, bytes, parts, asked)?,
        Err(refusal) => show_refused(rt, refusal)?,
    }
    show_end(rt)
}

// Finds the halves of the splitting that is asked for, and goes on with them.
fn show_split(rt: &impl Print, bytes: &[u8], parts: Parts, asked: Asked) -> io::Result<()> {
    let mut left_out = half_output();
    let mut right_out = half_output();
    let left = parts.left.body(bytes);
    let right = parts.right.body(bytes);
    let run = parts.run.body(bytes);
    match split(
        parts.labels(bytes),
        left,
        right,
        run,
        asked.number,
        &mut left_out,
        &mut right_out,
    ) {
        Ok(n) => show_answers(
            rt,
            bytes,
            parts,
            first(&left_out, n),
            first(&right_out, n),
            asked,
        ),
        Err(refusal) => show_refused(rt, refusal),
    }
}

// The verdict on the log; the quotient and the other half's verdict under it; the quotient by number; the line office's two verdicts; the cut.
fn show_answers<'a>(
    rt: &impl Print,
    bytes: &'a [u8],
    parts: Parts,
    left_half: &'a [u8],
    right_half: &'a [u8],
    asked: Asked,
) -> io::Result<()> {
    let left = parts.left.body(bytes);
    let right = parts.right.body(bytes);
    let run = parts.run.body(bytes);
    let question = parts.question.body(bytes);
    let labels = parts.labels(bytes);
    let point = asked.point;
    let side = asked.side;
    show(rt, b"joint verdict ")?;
    show_verdict(rt, joint(labels, left, right, run, question, point))?;
    show(rt, b", quotient ")?;
    show_by_half(rt, bytes, parts, left_half, right_half, asked)?;
    show(rt, b", quotient by number ")?;
    show_by_number(rt, labels, left, right, run, question, asked)?;
    show(rt, b", line office ")?;
    show_office(
        rt,
        line_office(
            labels, left, right, left_half, right_half, question, side, point,
        ),
    )?;
    show(rt, b", cut ")?;
    show_bytes(rt, cut(left_half, right_half, side, point))
}

// Prints the quotient by the known half, and the other half's verdict under it.
fn show_by_half<'a>(
    rt: &impl Print,
    bytes: &'a [u8],
    parts: Parts,
    left_half: &'a [u8],
    right_half: &'a [u8],
    asked: Asked,
) -> io::Result<()> {
    let left = parts.left.body(bytes);
    let right = parts.right.body(bytes);
    let question = parts.question.body(bytes);
    let labels = parts.labels(bytes);
    let point = asked.point;
    let side = asked.side;
    let mut out = output();
    let found = by_half(
        labels, left, right, left_half, right_half, question, side, point, &mut out,
    );
    let formula = quotient_in(found, &out);
    show_quotient(rt, found, &out)?;
    show(rt, b", other half's verdict ")?;
    match side.known() {
        Known::Left => show_verdict(rt, half(labels, right, right_half, formula, point)),
        Known::Right => show_verdict(rt, half(labels, left, left_half, formula, point)),
    }
}

// Prints the quotient by the known half of the splitting of a number.
pub(crate) fn show_by_number<'a>(
    rt: &impl Print,
    labels: Labels,
    left: &'a [u8],
    right: &'a [u8],
    run: &[u8],
    question: &[u8],
    asked: Asked,
) -> io::Result<()> {
    let side = asked.side;
    let mut out = output();
    let found = by_number(
        labels,
        left,
        right,
        run,
        question,
        asked.number,
        side,
        asked.point,
        &mut out,
    );
    show_quotient(rt, found, &out)
}

// The bytes of a quotient in the output; none where it was refused.
fn quotient_in(quotient: Result<usize, Refusal>, out: &[u8]) -> &[u8] {
    first(out, quotient.unwrap_or(0))
}

// Prints a quotient's bytes, or the number of a refusal.
pub(crate) fn show_quotient(
    rt: &impl Print,
    quotient: Result<usize, Refusal>,
    out: &[u8],
) -> io::Result<()> {
    match quotient {
        Ok(n) => show_bytes(rt, first(out, n)),
        Err(refusal) => show_refused(rt, refusal),
    }
}

// Prints the line's verdict and the machine's, or the number of a refusal.
pub(crate) fn show_office(
    rt: &impl Print,
    office: Result<(bool, bool), Refusal>,
) -> io::Result<()> {
    match office {
        Ok((line, machine)) => {
            show_truth(rt, line)?;
            show(rt, b" ")?;
            show_truth(rt, machine)
        }
        Err(refusal) => show_refused(rt, refusal),
    }
}
