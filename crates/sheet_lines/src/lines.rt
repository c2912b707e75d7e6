// Lines of the sheet of any bytes, as many as fit into an output.
ghost use Rattle.std.specs.Prelude.{◌≡◌, [], ◌∷◌, suc, ◌+◌, ◌*◌, ◌≤◌, length, take, drop};
ghost use Rattle.hml.specs.System.{steps};
ghost use Rattle.machines.specs.Joints.{joint_of};
ghost use Rattle.sheet_lines.specs.Sheets.{refused_line, case_lines, lines_due, listed, fitting, block_answer};
ghost use Rattle.sheet_lines.specs.Sheets.{block_output};
ghost use Rattle.sheet_lines.specs.Working.{shown, put_at, Asked, Numbered, numbered_line, Full};

use crate::case::Case;
use crate::point::{Progress, write_point};
use casebook::read::read;
use digits::decimal::{digit_count, put_decimal};
use formulas::backs::back_depth;
use labels::refusal::Refusal;

// How many lines were written, and how many bytes they are.
#[derive(Clone, Copy)]
pub struct Block {
    pub lines: usize,
    pub bytes: usize,
}

impl Block {
    // No line at all.
    pub const EMPTY: Block = Block { lines: 0, bytes: 0 };
}

// Writes lines of the sheet of any bytes: from line `first` on, at most so many, and no more than fit. Where the first
// line due does not fit, 18.
pub fn write_lines(
    casebook: &[u8],
    first: usize,
    most: usize,
    out: &mut [u8],
) -> Result<Block, Refusal>
    ensures value { result ≡ block_answer (lines_due casebook.now first most) (length out.old) }
    ensures out_after { out.new ≡ block_output (lines_due casebook.now first most) out.old }
{
    match read(casebook) {
        Ok(parts) => write_case(
            Case {
                bytes: casebook,
                parts,
            },
            first,
            most,
            out,
        ),
        Err(refusal) => write_refused(refusal, first, most, out),
    }
}

// The lines of a case of which no check refuses the log or the question, unless the count does.
fn write_case(case: Case, first: usize, most: usize, out: &mut [u8]) -> Result<Block, Refusal>
    requires { Asked (shown case) }
    ensures value { result ≡ block_answer
        (take most (drop first (case_lines (shown case.entry))))
        (length out.old) }
    ensures out_after { out.new ≡ block_output
        (take most (drop first (case_lines (shown case.entry))))
        out.old }
{
    match case.count() {
        Ok(splittings) => {
            let total = (case.steps() + 1) * splittings;
            if total <= first {
                return Ok(Block::EMPTY);
            }
            if most == 0 {
                return Ok(Block::EMPTY);
            }
            let due = most.min(total - first);
            write_due(case, splittings, first, due, out)
        }
        Err(refusal) => write_refused(refusal, first, most, out),
    }
}

// So many lines, from line `first` on, or as many of them as fit.
fn write_due(
    case: Case,
    splittings: usize,
    first: usize,
    due: usize,
    out: &mut [u8],
) -> Result<Block, Refusal>
    requires numbered { Numbered (shown case) splittings }
    requires le_due { (1 ≤ due) × (first + due ≤ suc (steps (joint_of (shown case).run)) * splittings) }
    ensures value { result ≡ block_answer
        (listed (numbered_line (shown case.entry) splittings) first due)
        (length out.old) }
    ensures out_after { out.new ≡ block_output
        (listed (numbered_line (shown case.entry) splittings) first due)
        out.old }
{
    let done = fill(case, splittings, first, due, out);
    let lines = done.number - first;
    if lines == 0 {
        return Err(Refusal::OutputTooShort);
    }
    Ok(Block {
        lines,
        bytes: done.at,
    })
}

// Fills an output with lines, point by point: line i is that of point i / splittings and of splitting i % splittings.
// Gives the line that is due next, and how many bytes are written.
fn fill(case: Case, splittings: usize, first: usize, due: usize, out: &mut [u8]) -> Progress
    requires numbered { Numbered (shown case) splittings }
    requires due_bound { first + due ≤ suc (steps (joint_of (shown case).run)) * splittings }
    ensures { Full
        (fitting (length out.old)
        (listed (numbered_line (shown case.entry) splittings) first due)) out.old 0 first
        out.new result.at result.number }
{
    let back = back_depth(case.question());
    let mut froms = [0usize; 8192];
    let mut ends = [0usize; 8192];
    let mut halves = [0u8; 205312];
    let mut text = [0u8; 8192];
    let mut line = [0u8; 16399];
    let end = first + due;
    // From point to point: the first and the last may be cut short.
    let mut i = first;
    let mut at: usize = 0;
    while i < end {
        let point = i / splittings;
        let number = i % splittings;
        let until = splittings.min(number + (end - i));
        let done = write_point(
            case,
            back,
            point,
            number,
            until,
            at,
            out,
            &mut froms,
            &mut ends,
            &mut halves,
            &mut text,
            &mut line,
        );
        at = done.at;
        i = i + (done.number - number);
        if done.number < until {
            return Progress { number: i, at };
        }
    }
    Progress { number: i, at }
}

// The line of a refused casebook or count, if it is among the lines asked for.
fn write_refused(
    refusal: Refusal,
    first: usize,
    most: usize,
    out: &mut [u8],
) -> Result<Block, Refusal>
    ensures value { result ≡ block_answer (take most (drop first (refused_line refusal ∷ []))) (length out.old) }
    ensures out_after { out.new
        ≡ block_output (take most (drop first (refused_line refusal ∷ []))) out.old }
{
    if 0 < first {
        return Ok(Block::EMPTY);
    }
    if most == 0 {
        return Ok(Block::EMPTY);
    }
    let len = refused_length(refusal);
    if out.len() < len {
        return Err(Refusal::OutputTooShort);
    }
    put_refused(refusal, out);
    Ok(Block {
        lines: 1,
        bytes: len,
    })
}

// How many bytes that line has.
fn refused_length(refusal: Refusal) -> usize
    ensures { result ≡ length (refused_line refusal) }
{
    digit_count(refusal.number() as usize) + 3
}

// The line itself, as "R 8".
fn put_refused(refusal: Refusal, out: &mut [u8])
    requires { length (refused_line refusal) ≤ length out.old }
    ensures { out.new ≡ put_at out.old 0 (refused_line refusal) }
{
    out[0] = b'R';
    out[1] = b' ';
    let at = put_decimal(out, 2, refusal.number() as usize);
    out[at] = b'\n';
}
