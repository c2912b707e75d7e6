// The lines of one point.
ghost use Rattle.std.specs.Prelude.{◌≡◌, ◌+◌, ◌-◌, ◌≤◌, ◌<◌, length, take, drop};
ghost use Rattle.hml.specs.System.{steps};
ghost use Rattle.machines.specs.Joints.{joint_of};
ghost use Rattle.splitting.specs.Splittings.{splitting_limit};
ghost use Rattle.formulas.specs.Working.{backs_of};
ghost use Rattle.sheet_lines.specs.Sheets.{letter_of, line_of, listed, fitting};
ghost use Rattle.sheet_lines.specs.Working.{shown, ways_of, count_in, letter_at, Asked, Full, counted_as, after_of};
ghost use Rattle.sheet_lines.specs.Working.{Forgotten, Scratch, ending_in, line_by, EndingsKnown, Shared};
ghost use Rattle.sheet_lines.specs.Working.{froms_after, ends_after};

use crate::case::Case;
use crate::ending::find_ending;
use crate::kept::{Kept, keep_halves};
use crate::line::write_turn;
use labels::copying::copy;
use labels::refusal::Refusal;
use verdict::joint::joint;

// What the lines of a point share: the point's number, the joint verdict's letter, how many splittings there are of its
// window, the steps before it by which quotients differ, and of what follows it, and how the halves of the window's
// splittings are kept.
#[derive(Clone, Copy)]
pub(crate) struct Point {
    pub number: usize,
    pub letter: u8,
    pub ways: usize,
    pub after: usize,
    pub kept: Kept,
}

// How far the lines of a point were written: the splitting whose line is due next, and its place in the output.
#[derive(Clone, Copy)]
pub(crate) struct Progress {
    pub number: usize,
    pub at: usize,
}

// Writes the lines of a point from splitting `number` on, behind a place, as many as fit, and not that of splitting
// `until`. The question looks back at most `back` steps.
pub(crate) fn write_point(
    case: Case,
    back: usize,
    point: usize,
    number: usize,
    until: usize,
    at: usize,
    out: &mut [u8],
    froms: &mut [usize; 8192],
    ends: &mut [usize; 8192],
    halves: &mut [u8],
    text: &mut [u8],
    line: &mut [u8],
) -> Progress
    requires asked { Asked (shown case) }
    requires back_value { (back ≡ backs_of (shown case).question)
        × (point ≤ steps (joint_of (shown case).run)) }
    requires number_le_until { (number ≤ until) × (until ≤ ways_of (shown case))
        × (ways_of (shown case) ≤ splitting_limit) }
    requires at_in_bounds { (at ≤ length out.old) × (length halves.old ≡ 205312)
        × Scratch froms.old ends.old text.old line.old }
    ensures full { Full
        (fitting (length out.old - at)
        (listed (line_of (shown case.entry) point) number (until - number)))
        out.old at number out.new result.at result.number }
    ensures scratch { Scratch froms.new ends.new text.new line.new }
{
    let first = window_start(point, back);
    let window = case.part(first, point);
    let rest = case.part(point, case.steps());
    let letter = letter_at(case, point);
    let ways = window.splittings();
    let after = splittings_after(rest, ways);
    let kept = keep_halves(window, ways, halves);
    let shared = Point {
        number: point,
        letter,
        ways,
        after,
        kept,
    };
    forget(ends, ways);
    write_numbers(
        window, shared, number, until, at, out, froms, ends, halves, text, line,
    )
}

// The same with what the lines of the point share: turn by turn, until a line does not fit. A turn has the splittings
// that follow each other and have the same number t in the window, so that their lines end alike.
fn write_numbers(
    window: Case,
    point: Point,
    number: usize,
    until: usize,
    at: usize,
    out: &mut [u8],
    froms: &mut [usize; 8192],
    ends: &mut [usize; 8192],
    halves: &[u8],
    text: &mut [u8],
    line: &mut [u8],
) -> Progress
    requires number_bound { (point.number < 1000) × (number ≤ until) × (until ≤ 65536) × (at ≤ length out.old) }
    requires after_nonzero { (0 < point.after) × (0 < point.ways) × (point.after ≤ 65536) }
    requires shared { Shared (shown window) point halves.now }
    requires scratch { Scratch froms.old ends.old text.old line.old }
    requires endings_known { EndingsKnown (ending_in (shown window) point.letter) point.ways froms.old
        ends.old out.old at }
    ensures full { Full
        (fitting (length out.old - at)
        (listed (line_by (shown window.entry) point) number (until - number))) out.old at
        number out.new result.at result.number }
    ensures scratch_2 { Scratch froms.new ends.new text.new line.new }
{
    let after = point.after;
    // From turn to turn: the first and the last may be cut short.
    let mut n = number;
    let mut to = at;
    while n < until {
        let t = n / after % point.ways;
        let end = until.min(n + (after - n % after));
        let len = take_ending(window, point, t, to, out, froms, ends, halves, text, line);
        let done = write_turn(point, n, end, len, to, out, line);
        remember(t, len, to, done.at, froms, ends);
        n = done.number;
        to = done.at;
        if n < end {
            return Progress { number: n, at: to };
        }
    }
    Progress { number: n, at: to }
}

// Puts the ending of the lines by splitting t of the window behind the first 12 bytes of `line`, and gives its length:
// copied from the output in front of `at`, if it stands there, else made anew.
fn take_ending(
    window: Case,
    point: Point,
    t: usize,
    at: usize,
    out: &[u8],
    froms: &[usize; 8192],
    ends: &[usize; 8192],
    halves: &[u8],
    text: &mut [u8],
    line: &mut [u8],
) -> usize
    requires t_lt_ways { (t < point.ways) × (at ≤ length out.now) }
    requires shared { Shared (shown window) point halves.now }
    requires scratch { Scratch froms.now ends.now text.old line.old }
    requires endings_known { EndingsKnown (ending_in (shown window) point.letter) point.ways froms.now
        ends.now out.now at }
    ensures value { result ≡ length
        (ending_in (shown window.entry) point.letter t) }
    ensures line_after { take result (drop 12 line.new)
        ≡ ending_in (shown window.entry) point.letter t }
    ensures upper_bound { result ≤ 16387 }
{
    if t < 8192 {
        let end = ends[t];
        if end != 0 {
            let from = froms[t];
            return copy(&out[from..end], &mut line[12..]);
        }
    }
    find_ending(
        window,
        t,
        point.kept,
        halves,
        point.letter,
        text,
        &mut line[12..],
    )
}

// Remembers that an ending of `len` bytes stands in the output in front of `to`, if a line was written, behind `at`,
// and if there is an entry for it.
fn remember(
    t: usize,
    len: usize,
    at: usize,
    to: usize,
    froms: &mut [usize; 8192],
    ends: &mut [usize; 8192],
)
    requires { ((to ≡ at → ⊥) → len ≤ to) × (length froms.old ≡ 8192) × (length ends.old ≡ 8192) }
    ensures froms_after { froms.new ≡ froms_after froms.old t len at to }
    ensures ends_after { ends.new ≡ ends_after ends.old t at to }
{
    if to == at {
        return;
    }
    if t < 8192 {
        froms[t] = to - len;
        ends[t] = to;
    }
}

// Where the window of a point begins: so many steps before it, or where the run does.
fn window_start(point: usize, back: usize) -> usize
    ensures { result ≡ point - back }
{
    if point < back {
        return 0;
    }
    point - back
}

// A verdict as a letter.
fn letter_of(verdict: Result<bool, Refusal>) -> u8
    ensures { result ≡ letter_of verdict }
{
    match verdict {
        Ok(true) => b'T',
        Ok(false) => b'F',
        Err(_) => b'-',
    }
}

// The letter of the joint verdict at a point.
fn letter_at(case: Case, point: usize) -> u8
    ensures { result ≡ letter_at (shown case.entry) point }
{
    let labels = case.labels();
    letter_of(joint(
        labels,
        case.left(),
        case.right(),
        case.run(),
        case.question(),
        point,
    ))
}

// By how many splittings numbers are divided to find their number in the window: by those of the rest of the run. Where
// the window has one splitting only, all numbers fall to it.
fn splittings_after(rest: Case, ways: usize) -> usize
    ensures { result ≡ after_of ways (counted_as (count_in (shown rest.entry))) }
{
    if ways == 1 {
        return 65536;
    }
    rest.splittings()
}

// No ending of an earlier point stands in the output any more.
fn forget(ends: &mut [usize; 8192], n: usize)
    requires { length ends.old ≡ 8192 }
    ensures forgotten { Forgotten ends.new n }
    ensures ends_len { length ends.new ≡ 8192 }
{
    ends[..n.min(8192)].fill(0);
}
