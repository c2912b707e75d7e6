// The calls for C and Rust: numbers as themselves, slices as pointer and length. Each answers one number: the refusal's
// number times 2^32, plus the value (0 when refused). Only a cut answers a length, and lines of the sheet a struct.
#![tactic(auto)]

pub mod sheet;
pub mod texts;

ghost use Rattle.std.specs.Prelude.{◌≡◌, ◌+◌, ◌*◌, ◌≤◌, length};
ghost use Rattle.labels.specs.Labels.{of_pairs};
ghost use Rattle.labels.specs.Refusals.{refused_as, value_answer};
ghost use Rattle.halves.specs.Cuts.{cut_of};
ghost use Rattle.machines.specs.Cases.{case_with};
ghost use Rattle.casebook.specs.Reading.{longest_casebook, read_of, read_answer};
ghost use Rattle.casebook.specs.Writing.{write_of, written_of, write_answer};
ghost use Rattle.verdict.specs.Verdicts.{joint_verdict, half_verdict, verdict_answer};
ghost use Rattle.splitting.specs.Splittings.{count_of, count_answer, split_of, split_answer, left_output, right_output};
ghost use Rattle.joining.specs.Joinings.{joining_of, join_output, join_answer};
ghost use Rattle.dividing.specs.Quotients.{quotient_answer};
ghost use Rattle.quotient.specs.Calls.{by_half, by_half_output, by_number, by_number_output, office_of, line_answer};
ghost use Rattle.engine.specs.Answers.{packed, nothing, only, two_bits, place_in, side_of};
ghost use Rattle.engine.specs.Working.{Placed, places_of};

use casebook::read::{Parts, read};
use casebook::write::write;
use halves::side::{Side, cut};
use joining::join::join;
use labels::label::Labels;
use labels::refusal::Refusal;
use quotient::half::by_half;
use quotient::line::line_office;
use quotient::number::by_number;
use records::record::Record;
use splitting::count::count;
use splitting::split::split;
use verdict::half::half;
use verdict::joint::joint;

// A refusal as a number.
pub(crate) fn refused(refusal: Refusal) -> u64
    ensures { result ≡ packed only (refused_as refusal) }
{
    refusal.number() as u64 * 4294967296
}

// What a call gives, as a number. Here, and where a call has more values than one, a Result ends: C gets numbers.
pub(crate) fn value(answer: Result<usize, Refusal>) -> u64
    ensures { result ≡ packed only (value_answer answer) }
{
    match answer {
        Ok(n) => n as u64,
        Err(refusal) => refused(refusal),
    }
}

// Reads a casebook: value 0.
#[unsafe(no_mangle)]
pub extern "C" fn yenuslap_casebook_read(bytes: &[u8]) -> u64
    ensures { result ≡ packed nothing (read_answer (read_of bytes.now)) }
{
    match read(bytes) {
        Ok(_) => 0,
        Err(refusal) => refused(refusal),
    }
}

// Where the body of the record of a kind lies: value start * 65536 + length.
#[unsafe(no_mangle)]
pub extern "C" fn yenuslap_casebook_part(bytes: &[u8], kind: u8) -> u64
    ensures { result ≡ packed (place_in kind) (read_answer (read_of bytes.now)) }
{
    match read(bytes) {
        Ok(parts) => place_in(parts, kind),
        Err(refusal) => refused(refusal),
    }
}

fn place_in(parts: Parts, kind: u8) -> u64
    requires { Placed parts }
    ensures { result ≡ place_in kind (places_of parts) }
{
    match kind {
        1 => place(parts.labels),
        2 => place(parts.left),
        3 => place(parts.right),
        4 => place(parts.run),
        5 => place(parts.question),
        _ => 0,
    }
}

fn place(record: Record) -> u64
    requires { «record».start + «record».len ≤ longest_casebook }
    ensures { result ≡ «record».start * 65536 + «record».len }
{
    record.start as u64 * 65536 + record.len as u64
}

// Writes the casebook of these parts: value bytes written.
#[unsafe(no_mangle)]
pub extern "C" fn yenuslap_casebook_write(
    k: u8,
    left: &[u8],
    right: &[u8],
    run: &[u8],
    question: &[u8],
    out: &mut [u8],
) -> u64
    ensures value { result ≡ packed only (write_answer
        (write_of (case_with (of_pairs k) left.now right.now run.now
        question.now)
        (length out.old))) }
    ensures out_after { out.new ≡
        written_of (case_with (of_pairs k) left.now right.now run.now
        question.now)
        out.old }
{
    let labels = Labels::of_pairs(k);
    value(write(labels, left, right, run, question, out))
}

// The side that a byte names.
fn side_of(side: u8) -> Side
    ensures { result ≡ side_of side }
{
    match side {
        1 => Side::Left,
        2 => Side::Right,
        _ => Side::Unnamed,
    }
}

// Cuts the known half at a point: the length of the part, 0 where it is refused (12).
#[unsafe(no_mangle)]
pub extern "C" fn yenuslap_cut<'a>(left: &'a [u8], right: &'a [u8], side: u8, point: usize) -> usize
    ensures { result ≡ length (cut_of left.now right.now (side_of side) point) }
{
    cut(left, right, side_of(side), point).len()
}

// A verdict as a number: 1 holds, 0 fails.
fn verdict_value(verdict: Result<bool, Refusal>) -> u64
    ensures { result ≡ packed only (verdict_answer verdict) }
{
    match verdict {
        Ok(holds) => u64::from(holds),
        Err(refusal) => refused(refusal),
    }
}

// Judges a formula on a joint run stopped at a point: value 1 holds, 0 fails.
#[unsafe(no_mangle)]
pub extern "C" fn yenuslap_joint_verdict(
    k: u8,
    left: &[u8],
    right: &[u8],
    run: &[u8],
    formula: &[u8],
    point: usize,
) -> u64
    ensures { result ≡ packed only (verdict_answer
        (joint_verdict (of_pairs k) left.now right.now run.now formula.now
        point)) }
{
    let labels = Labels::of_pairs(k);
    verdict_value(joint(labels, left, right, run, formula, point))
}

// Judges a formula on a half run stopped at a point: value 1 holds, 0 fails.
#[unsafe(no_mangle)]
pub extern "C" fn yenuslap_half_verdict(
    k: u8,
    table: &[u8],
    half_run: &[u8],
    formula: &[u8],
    point: usize,
) -> u64
    ensures { result ≡ packed only (verdict_answer
        (half_verdict (of_pairs k) table.now half_run.now formula.now point)) }
{
    let labels = Labels::of_pairs(k);
    verdict_value(half(labels, table, half_run, formula, point))
}

// How many splittings a joint run has: value count.
#[unsafe(no_mangle)]
pub extern "C" fn yenuslap_count_splittings(k: u8, left: &[u8], right: &[u8], run: &[u8]) -> u64
    ensures { result ≡ packed only (count_answer
        (count_of (of_pairs k) left.now right.now run.now)) }
{
    let labels = Labels::of_pairs(k);
    value(count(labels, left, right, run))
}

// Writes the halves of the splitting of a number: value length of each half.
#[unsafe(no_mangle)]
pub extern "C" fn yenuslap_split(
    k: u8,
    left: &[u8],
    right: &[u8],
    run: &[u8],
    number: usize,
    left_out: &mut [u8],
    right_out: &mut [u8],
) -> u64
    ensures value { result ≡ packed only (split_answer
        (split_of (of_pairs k) left.now right.now run.now number
        (length left_out.old) (length right_out.old))) }
    ensures left_out_after { left_out.new ≡
        left_output (of_pairs k) left.now right.now run.now number
        left_out.old (length right_out.old) }
    ensures right_out_after { right_out.new ≡
        right_output (of_pairs k) left.now right.now run.now number
        (length left_out.old) right_out.old }
{
    let labels = Labels::of_pairs(k);
    value(split(labels, left, right, run, number, left_out, right_out))
}

// Writes the joint run that two halves give: value its length.
#[unsafe(no_mangle)]
pub extern "C" fn yenuslap_join(
    k: u8,
    left: &[u8],
    right: &[u8],
    left_half: &[u8],
    right_half: &[u8],
    out: &mut [u8],
) -> u64
    ensures value { result ≡ packed only (join_answer
        (joining_of (of_pairs k) left.now right.now
        left_half.now right_half.now (length out.old))) }
    ensures out_after { out.new ≡
        join_output (of_pairs k) left.now right.now
        left_half.now right_half.now out.old }
{
    let labels = Labels::of_pairs(k);
    value(join(labels, left, right, left_half, right_half, out))
}

// Writes the quotient of a question by the known one of two halves, stopped at a point: value bytes written.
#[unsafe(no_mangle)]
pub extern "C" fn yenuslap_quotient<'a>(
    k: u8,
    left: &'a [u8],
    right: &'a [u8],
    left_half: &'a [u8],
    right_half: &'a [u8],
    question: &[u8],
    side: u8,
    point: usize,
    out: &mut [u8],
) -> u64
    ensures value { result ≡ packed only (quotient_answer
        (by_half (of_pairs k) left.now right.now left_half.now
        right_half.now
        question.now (side_of side) point (length out.old))) }
    ensures out_after { out.new ≡
        by_half_output (of_pairs k) left.now right.now left_half.now
        right_half.now
        question.now (side_of side) point out.old }
{
    let labels = Labels::of_pairs(k);
    let side = side_of(side);
    value(by_half(
        labels, left, right, left_half, right_half, question, side, point, out,
    ))
}

// Writes the quotient of a question by the known half of the splitting of a number, stopped at a point: value bytes
// written.
#[unsafe(no_mangle)]
pub extern "C" fn yenuslap_quotient_of_splitting<'a>(
    k: u8,
    left: &'a [u8],
    right: &'a [u8],
    run: &[u8],
    question: &[u8],
    number: usize,
    side: u8,
    point: usize,
    out: &mut [u8],
) -> u64
    ensures value { result ≡ packed only (quotient_answer
        (by_number (case_with (of_pairs k) left.now right.now run.now
        question.now) number (side_of side) point (length out.old))) }
    ensures out_after { out.new ≡
        by_number_output (case_with (of_pairs k) left.now right.now run.now
        question.now) number (side_of side) point out.old }
{
    let labels = Labels::of_pairs(k);
    let side = side_of(side);
    value(by_number(labels, left, right, run, question, number, side, point, out))
}

// Puts a question to the whole line and to one machine, at a point: value 2 * the line's verdict + the machine's.
#[unsafe(no_mangle)]
pub extern "C" fn yenuslap_line_office<'a>(
    k: u8,
    left: &'a [u8],
    right: &'a [u8],
    left_half: &'a [u8],
    right_half: &'a [u8],
    question: &[u8],
    side: u8,
    point: usize,
) -> u64
    ensures { result ≡ packed two_bits (line_answer
        (office_of (of_pairs k) left.now right.now left_half.now
        right_half.now
        question.now (side_of side) point)) }
{
    let labels = Labels::of_pairs(k);
    let side = side_of(side);
    match line_office(
        labels, left, right, left_half, right_half, question, side, point,
    ) {
        Ok((line, machine)) => 2 * u64::from(line) + u64::from(machine),
        Err(refusal) => refused(refusal),
    }
}
