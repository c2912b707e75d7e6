// The sheet of a casebook: standard input to standard output.
#![tactic(auto)]

mod output;

ghost use Rattle.std.specs.Prelude.{◌≡◌, true, List, ℕ, ◌+◌, ◌≤◌, ◌<◌, length, take};
ghost use Rattle.casebook.specs.Reading.{longest_casebook};
ghost use Rattle.sheet_lines.specs.Sheets.{sheet_of};
ghost use Rattle.sheet_lines.specs.Blocks.{block_from};

use crate::output::Printed;
use casebook::read::LONGEST;
use reading::read_full;
use sheet_lines::block::write_block;
use std::io;

// No casebook is longer than the longest, so one byte more is enough to judge any input. A read or a write that fails
// ends the program with an error.
fn main(rt: HostRuntime) -> io::Result<()> {
    let mut input = [0u8; LONGEST + 1];
    let n = read_full(&mut rt.stdin(), &mut input)?;
    let mut out = [0u8; 3145728];
    let printed = print_input(&rt, &input, n, &mut out);
    if !printed.is_taken() {
        return Err(io::Error::other("standard output did not take all lines"));
    }
    Ok(())
}

// Prints the sheet of an input whose first bytes, as many as there is room for, stand in the front of `input`.
fn print_input(rt: &impl Print, input: &[u8], n: usize, out: &mut [u8; 3145728]) -> Printed
    requires { (longest_casebook < length input.now) × (n ≤ length input.now) }
    ensures { (s : List ℕ) → take (length input.now) s ≡ take n input.now
        → result.taken ≡ true → result.next ≡ length (sheet_of s) }
{
    print_sheet(rt, &input[..n], out)
}

// Prints the sheet of any bytes, block by block, until no line is left or standard output takes no more. (With one call
// of `print_block` the compiler would copy it into `main`, where its inner loop is a quarter slower.)
fn print_sheet(rt: &impl Print, casebook: &[u8], out: &mut [u8; 3145728]) -> Printed
    ensures { result.taken ≡ true → result.next ≡ length (sheet_of casebook.now) }
{
    let mut first: usize = 0;
    let mut printed = print_block(rt, casebook, Printed::nothing(), out);
    while printed.is_taken() && first < printed.next() {
        first = printed.next();
        printed = print_block(rt, casebook, printed, out);
    }
    printed
}

// Prints the block that comes next.
fn print_block(rt: &impl Print, casebook: &[u8], done: Printed, out: &mut [u8; 3145728]) -> Printed
    requires { (done.taken ≡ true) × (done.next ≤ length (sheet_of casebook.now)) }
    ensures { result.next ≡ done.next + length (block_from casebook.now done.next) }
{
    let first = done.next();
    let block = write_block(casebook, first, out);
    let next = first + block.lines;
    done.hand_over(rt, casebook, next, out, block.bytes)
}
