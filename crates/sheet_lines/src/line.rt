// Lines of the sheet that end alike: those of one point and of splittings that follow each other.
ghost use Rattle.std.specs.Prelude.{◌≡◌, ◌+◌, ◌-◌, ◌≤◌, ◌<◌, length, take, drop, set};
ghost use Rattle.sheet_lines.specs.Sheets.{head_of, listed, fitting};
ghost use Rattle.sheet_lines.specs.Working.{put_at, line_with, digit_line, Full, Tens};

use crate::point::{Point, Progress};
use digits::decimal::{digit_count, put_decimal};
use labels::copying::copy;

// Writes the lines of the splittings from `number` on, and not that of `until`, behind a place, as many as fit. They
// end with the `len` bytes that `line` has behind its first 12, and those are room for the fields in front.
pub(crate) fn write_turn(
    point: Point,
    number: usize,
    until: usize,
    len: usize,
    at: usize,
    out: &mut [u8],
    line: &mut [u8],
) -> Progress
    requires number_bound { (point.number < 1000) × (number ≤ until) × (until ≤ 65536) × (at ≤ length out.old) }
    requires len_in_bounds { 12 + len ≤ length line.old }
    ensures { Full
        (fitting (length out.old - at)
        (listed (line_with point (take len (drop 12 line.old))) number (until - number))) out.old
        at number out.new result.at result.number }
{
    // From ten to ten: the first may be cut short, and where lines no longer fit it ends.
    let mut i = number;
    let mut to = at;
    while i < until {
        let end = until.min(i - i % 10 + 10);
        let done = write_tens(point, i, end, len, to, out, line);
        i = done.number;
        to = done.at;
        if i < end {
            return Progress { number: i, at: to };
        }
    }
    Progress { number: i, at: to }
}

// The same for numbers that differ in their last digit only.
fn write_tens(
    point: Point,
    number: usize,
    until: usize,
    len: usize,
    at: usize,
    out: &mut [u8],
    line: &mut [u8],
) -> Progress
    requires number_bound { (point.number < 1000) × (until ≤ 65536) × (at ≤ length out.old) }
    requires tens { Tens number until × (12 + len ≤ length line.old) }
    ensures full { Full
        (fitting (length out.old - at)
        (listed (line_with point (take len (drop 12 line.old))) number (until - number))) out.old
        at number out.new result.at result.number }
    ensures line_unchanged { take len (drop 12 line.new) ≡ take len (drop 12 line.old) }
{
    let head = head_length(point, number);
    let start = 12 - head;
    put_head(point, number, start, line);
    write_digits(number, until, &line[start..12 + len], head - 4, at, out)
}

// The same from the whole line of the first number: the others are copies of it, with another last digit in its place.
// `last` is the last place where a line has room.
fn write_digits(
    number: usize,
    until: usize,
    line: &[u8],
    place: usize,
    at: usize,
    out: &mut [u8],
) -> Progress
    requires { Tens number until × (until ≤ 65536) × (place < length line.now) × (at ≤ length out.old) }
    ensures { Full
        (fitting (length out.old - at)
        (listed (digit_line line.now place number) number (until - number))) out.old at number
        out.new result.at result.number }
{
    if out.len() < line.len() {
        return Progress { number, at };
    }
    let last = out.len() - line.len();
    let first = 48 + (number % 10) as u8;
    let end = first + (until - number) as u8;
    let mut to = at;
    for digit in first..end {
        if last < to {
            return Progress {
                number: number + (digit - first) as usize,
                at: to,
            };
        }
        put_line(line, place, digit, to, out);
        to += line.len();
    }
    Progress {
        number: until,
        at: to,
    }
}

// Writes a line at a place, with this digit in the line's place for it.
fn put_line(line: &[u8], place: usize, digit: u8, at: usize, out: &mut [u8])
    requires { (at + length line.now ≤ length out.old) × (place < length line.now) }
    ensures { out.new ≡ put_at out.old at (set line.now place digit) }
{
    copy(line, &mut out[at..]);
    out[at + place] = digit;
}

// How many bytes the three first fields have, each with the blank behind it.
fn head_length(point: Point, number: usize) -> usize
    requires { (point.number < 1000) × (number < 100000) }
    ensures value { result ≡ length (head_of point.number number point.letter) }
    ensures few { result ≤ 12 }
{
    digit_count(point.number) + digit_count(number) + 4
}

// Writes the three first fields at a place, each with the blank behind it, and gives the place behind them.
fn put_head(point: Point, number: usize, at: usize, out: &mut [u8]) -> usize
    requires { at + length (head_of point.number number point.letter) ≤ length out.old }
    ensures value { result ≡ at + length (head_of point.number number point.letter) }
    ensures out_after { out.new ≡ put_at out.old at (head_of point.number number point.letter) }
{
    let first = put_decimal(out, at, point.number);
    out[first] = b' ';
    let second = put_decimal(out, first + 1, number);
    out[second] = b' ';
    out[second + 1] = point.letter;
    out[second + 2] = b' ';
    second + 3
}
