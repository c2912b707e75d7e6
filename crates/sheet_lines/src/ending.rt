// The two last fields of a line: the quotient by the right half, and the left half's verdict.
ghost use Rattle.std.specs.Prelude.{◌≡◌, [], ◌∷◌, ◌++◌, ◌+◌, ◌*◌, ◌≤◌, ◌<◌, length, take};
ghost use Rattle.labels.specs.Refusals.{number_of};
ghost use Rattle.splitting.specs.Splittings.{splitting_limit};
ghost use Rattle.digits.specs.Digits.{decimal, hexadecimal};
ghost use Rattle.sheet_lines.specs.Sheets.{blank, dash, line_feed};
ghost use Rattle.sheet_lines.specs.Working.{shown, put_at, ways_of, ending_in, Asked, Halved};

use crate::case::Case;
use crate::kept::{Kept, quotient_text};
use digits::decimal::put_decimal;
use digits::hexadecimal::put_hexadecimal;
use labels::refusal::Refusal;

// Writes the ending of the lines by splitting t of a window, at its end, to the front of `ending`, and gives its
// length.
pub(crate) fn find_ending(
    window: Case,
    t: usize,
    kept: Kept,
    halves: &[u8],
    letter: u8,
    text: &mut [u8],
    ending: &mut [u8],
) -> usize
    requires asked { Asked (shown window) × (t < ways_of (shown window))
        × (ways_of (shown window) ≤ splitting_limit) }
    requires halved { Halved (shown window) kept halves.now × (length text.old ≡ 8192) }
    requires ending_len { length ending.old ≡ 16387 }
    ensures value { result ≡ length (ending_in (shown window.entry) letter t) }
    ensures ending_after { take result ending.new ≡ ending_in (shown window.entry) letter t }
    ensures upper_bound { result ≤ 16387 }
{
    match quotient_text(window, t, kept, halves, text) {
        Ok(n) => put_fields(&text[..n], letter, ending),
        Err(refusal) => put_refusal(refusal, ending),
    }
}

// The quotient's bytes, and the verdict's letter.
fn put_fields(text: &[u8], letter: u8, out: &mut [u8]) -> usize
    requires { 2 * length text.now + 3 ≤ length out.old }
    ensures value { result ≡ 2 * length text.now + 3 }
    ensures out_after { out.new
        ≡ put_at out.old 0 (hexadecimal text.now ++ (blank ∷ letter ∷ line_feed ∷ [])) }
{
    let at = put_hexadecimal(out, 0, text);
    out[at] = b' ';
    out[at + 1] = letter;
    out[at + 2] = b'\n';
    at + 3
}

// The number of a refused quotient, and the mark that there is no verdict.
fn put_refusal(refusal: Refusal, out: &mut [u8]) -> usize
    requires { 5 ≤ length out.old }
    ensures value { result ≡ length (decimal (number_of refusal)) + 3 }
    ensures out_after { out.new
        ≡ put_at out.old 0 (decimal (number_of refusal) ++ (blank ∷ dash ∷ line_feed ∷ [])) }
{
    let number = refusal.number() as usize;
    let at = put_decimal(out, 0, number);
    out[at] = b' ';
    out[at + 1] = b'-';
    out[at + 2] = b'\n';
    at + 3
}
