// The header and the lines of a text, each with its line feed.
ghost use Rattle.std.specs.Prelude.{◌≡◌, ◌≤◌, length, IfSome};
ghost use Rattle.aldebaran_form.specs.Forms.{des};
ghost use Rattle.aldebaran_form.specs.Lines.{next, behind};
ghost use Rattle.aldebaran_form.specs.Working.{rest_at, head_in, head_found, row_in, line_found};

use crate::scan::{number_at, past, quote_from};

// What a header says, and the place behind its line feed.
#[derive(Clone, Copy)]
pub struct HeaderLine {
    pub first: usize,
    pub rows: usize,
    pub states: usize,
    pub behind: usize,
}

// What a line says, its label as the part of the text from a place up to another, and the place behind its line feed.
#[derive(Clone, Copy)]
pub struct RowLine {
    pub from: usize,
    pub label: usize,
    pub quote: usize,
    pub to: usize,
    pub behind: usize,
}

// `des (first,rows,states)` and a line feed, at the front of a text; nothing, if it is not of the form.
pub fn header_line(text: &[u8]) -> Option<HeaderLine>
    ensures found { head_found text.now result ≡ head_in text.now }
    ensures inside { IfSome result (λ header. header.behind ≤ length text.now) }
{
    let opened = past_des(text);
    let first = number_at(text, opened);
    let second = past(text, first.end, 44);
    let rows = number_at(text, second);
    let third = past(text, rows.end, 44);
    let states = number_at(text, third);
    let end = past(text, states.end, 41);
    let start = past(text, end, 10);
    let missing = text.len() < start;
    if missing {
        return None;
    }
    Some(HeaderLine {
        first: first.value,
        rows: rows.value,
        states: states.value,
        behind: start,
    })
}

// The place behind `des (`.
fn past_des(text: &[u8]) -> usize
    ensures { rest_at text.now result ≡ behind des text.now }
{
    let d = past(text, 0, 100);
    let e = past(text, d, 101);
    let s = past(text, e, 115);
    let blank = past(text, s, 32);
    past(text, blank, 40)
}

// `(from,"label",to)` and a line feed, from a place of a text on; nothing, if it is not of the form.
pub fn row_line(text: &[u8], at: usize) -> Option<RowLine>
    ensures found { line_found text.now result ≡ next (rest_at text.now at) row_in }
    ensures inside { IfSome result (λ row. (row.label ≤ row.quote)
        × (row.quote ≤ length text.now) × (row.behind ≤ length text.now)) }
{
    let opened = past(text, at, 40);
    let from = number_at(text, opened);
    let comma = past(text, from.end, 44);
    let label = past(text, comma, 34);
    let quote = quote_from(text, label);
    let closed = past(text, quote, 34);
    let second = past(text, closed, 44);
    let to = number_at(text, second);
    let end = past(text, to.end, 41);
    let behind = past(text, end, 10);
    let missing = text.len() < behind;
    if missing {
        return None;
    }
    Some(RowLine {
        from: from.value,
        label,
        quote,
        to: to.value,
        behind,
    })
}
