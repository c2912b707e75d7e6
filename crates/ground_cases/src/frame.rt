// How trials stand in the input: a header of 11 bytes (function, k, x, y, z, three lengths of two bytes), then three byte strings.
ghost use Rattle.std.specs.Prelude.{◌<◌};

// One trial: its numbers, and where its strings begin in the input; the last one ends at `end`.
#[derive(Clone, Copy)]
pub struct Trial {
    pub code: u8,
    pub k: u8,
    pub x: u8,
    pub y: u8,
    pub z: u8,
    pub left: usize,
    pub right: usize,
    pub run: usize,
    pub end: usize,
}

// A place in the input.
#[derive(Clone, Copy)]
pub struct Cursor {
    pub at: usize,
}

// A byte as a larger number.
pub(crate) fn wide(byte: u8) -> usize
    ensures { result < 256 }
{
    byte as usize
}

// The byte at a place; 0 beyond the end.
fn byte_at(input: &[u8], at: usize) -> u8 {
    input.get(at).copied().unwrap_or(0)
}

// Two bytes as a number, little-endian.
pub(crate) fn word(low: u8, high: u8) -> usize
    ensures { result < 65536 }
{
    wide(low) + 256 * wide(high)
}

// A point or an index: 65,535 stands for the largest number there is.
pub(crate) fn number(low: u8, high: u8) -> usize {
    let n = word(low, high);
    if n == 65535 {
        return 18446744073709551615;
    }
    n
}

impl Cursor {
    // The trial that begins here, if all of it is there.
    pub(crate) fn trial(self, input: &[u8]) -> Option<Trial> {
        let at = self.at;
        if input.len() < at {
            return None;
        }
        if input.len() - at < 11 {
            return None;
        }
        let left = at + 11;
        let first = word(byte_at(input, at + 5), byte_at(input, at + 6));
        let second = word(byte_at(input, at + 7), byte_at(input, at + 8));
        let third = word(byte_at(input, at + 9), byte_at(input, at + 10));
        if input.len() - left < first + second + third {
            return None;
        }
        let code = byte_at(input, at);
        let k = byte_at(input, at + 1);
        let x = byte_at(input, at + 2);
        let y = byte_at(input, at + 3);
        let z = byte_at(input, at + 4);
        let right = left + first;
        let run = right + second;
        let end = run + third;
        Some(Trial {
            code,
            k,
            x,
            y,
            z,
            left,
            right,
            run,
            end,
        })
    }
}
