// A sheet in blocks: one after the other, each from where the one before ended, they are the whole sheet.
ghost use Rattle.std.specs.Prelude.{◌≡◌};
ghost use Rattle.labels.specs.Refusals.{in_front};
ghost use Rattle.sheet_lines.specs.Sheets.{bytes_of, block_of};
ghost use Rattle.sheet_lines.specs.Blocks.{block_from};

use crate::lines::{Block, write_lines};

// Writes the block of the sheet of any bytes that begins with line `first`. It has no line only if none is left, for a
// line always fits. No sheet has over 13,172,535 lines: 201 points, and 65,535 splittings.
pub fn write_block(casebook: &[u8], first: usize, out: &mut [u8; 3145728]) -> Block
    ensures value { result ≡ block_of (block_from casebook.now first) }
    ensures out_after { out.new
        ≡ in_front (bytes_of (block_from casebook.now first)) out.old }
{
    write_lines(casebook, first, 13172535, out).unwrap_or(Block::EMPTY)
}
