// Bytes of an input, read into a lent buffer. Rests on no other crate.
#![tactic(auto)]

ghost use Rattle.std.specs.Prelude.{◌≡◌, ◌++◌, ◌≤◌, ◌<◌, length, take, drop, IfOk};
ghost use Rattle.std.specs.Io.KnownBytes.{Consumes, IsAtEnd};

use std::io::{self, Read};

// Reads until the buffer is full or the input ends; how many bytes then stand in its front. They are the input's next
// bytes, where those are known, and fewer than there is room for only at its end. A read that fails ends it.
pub fn read_full<R: Read>(input: &mut R, buffer: &mut [u8]) -> io::Result<usize>
    ensures bound { IfOk result (λ n. n ≤ length buffer.new) }
    ensures bytes { IfOk result (λ n. Consumes (R.remaining input.old) (R.remaining input.new) (take n buffer.new)) }
    ensures end { IfOk result (λ n. n < length buffer.new → IsAtEnd (R.remaining input.new)) }
{
    // As far as each read comes; std's `read_exact` says too little of an input that ends early.
    let mut n = 0;
    while n < buffer.len() {
        let read = input.read(&mut buffer[n..])?;
        if read == 0 {
            break;
        }
        n += read;
    }
    Ok(n)
}
