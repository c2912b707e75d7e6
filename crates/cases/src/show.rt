// Values as they stand in a line: numbers in decimal, bytes in lower-case hexadecimal, a refusal by its number.
ghost use Rattle.std.specs.Prelude.{◌≡◌, ◌<◌, length};

use labels::refusal::Refusal;
use std::io;

// 8,192 bytes to lend, two for each of a quotient's 4,096 nodes, all 9. The promise is what a loan of them needs.
pub(crate) fn output() -> [u8; 8192]
    ensures { 8192 ≡ length result }
{
    [9; 8192]
}

// 401 bytes to lend, for a half of 200 steps.
pub(crate) fn half_output() -> [u8; 401]
    ensures { 401 ≡ length result }
{
    [9; 401]
}

// Prints words as they are.
pub(crate) fn show(rt: &impl Print, words: &[u8]) -> io::Result<()> {
    rt.write_all(words)
}

// Ends a line.
pub(crate) fn show_end(rt: &impl Print) -> io::Result<()> {
    show(rt, b"\n")
}

// Prints a number in decimal.
pub(crate) fn show_number(rt: &impl Print, n: usize) -> io::Result<()> {
    rt.print(n)
}

// Prints bytes, two digits for each.
pub(crate) fn show_bytes(rt: &impl Print, bytes: &[u8]) -> io::Result<()> {
    for byte in bytes {
        print!(rt; "{byte:02x}")?;
    }
    Ok(())
}

// Prints a refusal by its number.
pub(crate) fn show_refused(rt: &impl Print, refusal: Refusal) -> io::Result<()> {
    show(rt, b"refused ")?;
    rt.print(refusal.number())
}

// Prints T or F, or the number of a refusal.
pub(crate) fn show_verdict(rt: &impl Print, verdict: Result<bool, Refusal>) -> io::Result<()> {
    match verdict {
        Ok(holds) => show_truth(rt, holds),
        Err(refusal) => show_refused(rt, refusal),
    }
}

// Prints T or F.
pub(crate) fn show_truth(rt: &impl Print, holds: bool) -> io::Result<()> {
    if holds {
        return show(rt, b"T");
    }
    show(rt, b"F")
}

// The first n bytes of an output; none where there are not so many.
pub(crate) fn first(bytes: &[u8], n: usize) -> &[u8] {
    if n <= bytes.len() {
        return &bytes[..n];
    }
    &bytes[..0]
}

// A checksum of bytes: each is added to 31 times the sum so far, modulo 65,521.
pub(crate) fn checksum(bytes: &[u8]) -> usize
    ensures { result < 65521 }
{
    let mut sum: usize = 0;
    for byte in bytes {
        sum = (31 * sum + *byte as usize) % 65521;
    }
    sum
}
