// The splittings of a log: how many there are, the halves of each, and what halves are joined to.
use crate::show::{first, half_output, output, show, show_bytes, show_number, show_refused};
use casebook::read::read;
use joining::join::join;
use labels::label::Labels;
use labels::refusal::Refusal;
use splitting::count::count;
use splitting::split::split;
use std::io;

// Prints a count's answer.
pub(crate) fn show_count(rt: &impl Print, counted: Result<usize, Refusal>) -> io::Result<()> {
    match counted {
        Ok(n) => show_number(rt, n),
        Err(refusal) => show_refused(rt, refusal),
    }
}

// Prints how many splittings the log of a casebook has.
pub(crate) fn show_log_count(rt: &impl Print, bytes: &[u8]) -> io::Result<()> {
    match read(bytes) {
        Ok(parts) => show_count(
            rt,
            count(
                parts.labels(bytes),
                parts.left.body(bytes),
                parts.right.body(bytes),
                parts.run.body(bytes),
            ),
        ),
        Err(refusal) => show_refused(rt, refusal),
    }
}

// Prints both halves of a splitting of the log of a casebook.
pub(crate) fn show_log_halves(rt: &impl Print, bytes: &[u8], number: usize) -> io::Result<()> {
    match read(bytes) {
        Ok(parts) => show_halves(
            rt,
            parts.labels(bytes),
            parts.left.body(bytes),
            parts.right.body(bytes),
            parts.run.body(bytes),
            number,
        ),
        Err(refusal) => show_refused(rt, refusal),
    }
}

// Prints both halves of a splitting of a log, and what they are joined to.
pub(crate) fn show_halves(
    rt: &impl Print,
    labels: Labels,
    left: &[u8],
    right: &[u8],
    run: &[u8],
    number: usize,
) -> io::Result<()> {
    let mut left_out = half_output();
    let mut right_out = half_output();
    match split(
        labels,
        left,
        right,
        run,
        number,
        &mut left_out,
        &mut right_out,
    ) {
        Ok(n) => {
            show(rt, b"left half ")?;
            show_bytes(rt, first(&left_out, n))?;
            show(rt, b", right half ")?;
            show_bytes(rt, first(&right_out, n))?;
            show(rt, b", joined ")?;
            show_joined(
                rt,
                labels,
                left,
                right,
                first(&left_out, n),
                first(&right_out, n),
            )
        }
        Err(refusal) => show_refused(rt, refusal),
    }
}

// Prints the joint run that two halves are joined to.
pub(crate) fn show_joined(
    rt: &impl Print,
    labels: Labels,
    left: &[u8],
    right: &[u8],
    left_half: &[u8],
    right_half: &[u8],
) -> io::Result<()> {
    let mut out = output();
    match join(labels, left, right, left_half, right_half, &mut out) {
        Ok(n) => show_bytes(rt, first(&out, n)),
        Err(refusal) => show_refused(rt, refusal),
    }
}
