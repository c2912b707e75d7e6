// The lines behind the header, one after the other.
ghost use Rattle.std.specs.Prelude.{◌≡◌, ◌<◌, length, drop, None, IfSome, IfNone};
ghost use Rattle.aldebaran.specs.Working.{RowFound, row_lines};

use aldebaran_form::label::label_of;
use aldebaran_form::line::row_line;
use labels::label::Label;

// A line that was read, and the place behind it.
#[derive(Clone, Copy)]
pub(crate) struct NextRow {
    pub(crate) from: usize,
    pub(crate) label: Option<Label>,
    pub(crate) to: usize,
    pub(crate) behind: usize,
}

// The line at a place; nothing, if it is not of the form or no line feed ends it.
pub(crate) fn next_row(text: &[u8], at: usize) -> Option<NextRow>
    requires { at < length text.now }
    ensures found { IfSome result (λ row. RowFound text.now at row) }
    ensures missing { IfNone result (row_lines (drop at text.now) ≡ None) }
{
    let row = row_line(text, at)?;
    let start = row.label;
    let quote = row.quote;
    Some(NextRow {
        from: row.from,
        label: label_of(&text[start..quote]),
        to: row.to,
        behind: row.behind,
    })
}
