// Puts the public functions of labels, tables, halves and machines through trials read from standard input, a line of
// numbers for each. The trials and the output that `rt ci` compares with come from the plain implementation of
// document 01 in rust/reference (`make outputs`), not from this program.
#![tactic(auto)]

mod answers;
mod frame;
mod line;

use answers::{
    put_call, put_has, put_known, put_label, put_leaving, put_partners, put_row, put_step,
    put_then, side_of,
};
use frame::{Cursor, Trial, number};
use halves::half::check_half;
use halves::side::cut;
use labels::label::{Label, Labels};
use line::{put_bytes, put_check, put_end, put_mark};
use machines::joint::check_joint;
use reading::read_full;
use std::io;
use tables::check::check_table;
use tables::row::Row;

// The functions of labels, and the side: trials of numbers only.
fn put_numbers(line: &mut [u8], trial: Trial) -> usize {
    let labels = Labels::of_pairs(trial.k);
    match trial.code {
        0 => put_check(line, 0, labels.check()),
        1 => put_label(line, labels, Label(trial.x)),
        2 => put_partners(line, labels),
        10 => put_known(line, side_of(trial.x)),
        11 => put_then(line, trial.x, trial.y),
        _ => put_mark(line, 0, b'?'),
    }
}

// The functions of tables, halves and machines.
fn put_answer<'a>(
    line: &mut [u8],
    trial: Trial,
    left: &'a [u8],
    right: &'a [u8],
    run: &[u8],
) -> usize {
    let labels = Labels::of_pairs(trial.k);
    let i = number(trial.y, trial.z);
    match trial.code {
        3 => put_call(line, labels, check_table(labels, left)),
        4 => put_row(line, left, i),
        5 => put_leaving(line, labels, left, trial.x),
        6 => put_has(
            line,
            labels,
            left,
            Row {
                from: trial.x,
                label: Label(trial.y),
                to: trial.z,
            },
        ),
        7 => put_call(line, labels, check_half(labels, left, run)),
        8 => put_step(line, run, i),
        9 => put_bytes(line, cut(left, right, side_of(trial.x), i)),
        12 => put_call(line, labels, check_joint(labels, left, right, run)),
        _ => put_numbers(line, trial),
    }
}

// Writes the first n bytes of a line.
fn print_line(rt: &impl Print, line: &[u8], n: usize) -> io::Result<()> {
    if n <= line.len() {
        rt.write_all(&line[..n])?;
    }
    Ok(())
}

// Prints the line of one trial, whose strings lie within the input.
fn print_trial(rt: &impl Print, input: &[u8], trial: Trial) -> io::Result<()> {
    let left = trial.left;
    let right = trial.right;
    let run = trial.run;
    let end = trial.end;
    if input.len() < end {
        return Ok(());
    }
    if end < run {
        return Ok(());
    }
    if run < right {
        return Ok(());
    }
    if right < left {
        return Ok(());
    }
    let mut line = [0u8; 4096];
    let at = put_answer(
        &mut line,
        trial,
        &input[left..right],
        &input[right..run],
        &input[run..end],
    );
    let n = put_end(&mut line, at);
    print_line(rt, &line, n)
}

// Prints a line for each trial; stops at a malformed one.
fn print_trials(rt: &impl Print, input: &[u8]) -> io::Result<()> {
    // From trial to trial: how far, each trial says.
    let mut at = 0;
    while at < input.len() {
        let Some(trial) = (Cursor { at }).trial(input) else {
            return rt.write_all(b"malformed\n");
        };
        print_trial(rt, input, trial)?;
        let end = trial.end;
        if end <= at {
            return Ok(());
        }
        at = end;
    }
    Ok(())
}

fn main(rt: HostRuntime) -> io::Result<()> {
    let mut input = [0u8; 65536];
    let n = read_full(&mut rt.stdin(), &mut input)?;
    print_trials(&rt, &input[..n])
}
