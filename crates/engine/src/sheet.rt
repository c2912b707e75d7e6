// Lines of the sheet for C and Rust. Their answer has two values, so it is a struct and not one number.
ghost use Rattle.std.specs.Prelude.{◌≡◌, length};
ghost use Rattle.sheet_lines.specs.Sheets.{lines_due, block_answer, block_output, lines_answer};
ghost use Rattle.engine.specs.Answers.{lines_told};

use sheet_lines::lines::write_lines;

// The refusal's number, or 0; how many lines were written, and how many bytes they are.
#[repr(C)]
#[derive(Clone, Copy)]
pub struct LinesAnswer {
    pub refusal: u64,
    pub lines: u64,
    pub bytes: u64,
}

// Writes lines of the sheet of any bytes, from line `first` on, at most so many, and no more than fit.
#[unsafe(no_mangle)]
pub extern "C" fn yenuslap_sheet_lines(
    casebook: &[u8],
    first: usize,
    most: usize,
    out: &mut [u8],
) -> LinesAnswer
    ensures value { result ≡ lines_told (lines_answer
        (block_answer (lines_due casebook.now first most) (length out.old))) }
    ensures out_after { out.new ≡ block_output (lines_due casebook.now first most) out.old }
{
    match write_lines(casebook, first, most, out) {
        Ok(block) => LinesAnswer {
            refusal: 0,
            lines: block.lines as u64,
            bytes: block.bytes as u64,
        },
        Err(refusal) => LinesAnswer {
            refusal: refusal.number() as u64,
            lines: 0,
            bytes: 0,
        },
    }
}
