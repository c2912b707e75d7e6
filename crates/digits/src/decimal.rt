// Numbers in decimal: how many digits they have, and writing them.
ghost use Rattle.std.specs.Prelude.{◌≡◌, [], ◌∷◌, ◌+◌, ◌/◌, ◌%◌, ◌≤◌, ◌<◌, length};
ghost use Rattle.digits.specs.Digits.{decimal};
ghost use Rattle.digits.specs.Outputs.{put_at, put_if_room, behind_if_room};

use crate::output::has_room;

// How many digits a number has.
pub fn digit_count(n: usize) -> usize
    ensures { result ≡ length (decimal n) }
{
    if n < 10 {
        return 1;
    }
    if n < 100 {
        return 2;
    }
    if n < 1000 {
        return 3;
    }
    if n < 10000 {
        return 4;
    }
    if n < 100000 {
        return 5;
    }
    digit_count(n / 10000) + 4
}

// Writes a number in decimal at a place, and gives the place behind it. Where it has no room, the output is as before
// and the answer is the same place, which tells the two apart: a number has a digit. Five digits at most are not
// counted where five have room.
pub fn put_decimal(out: &mut [u8], at: usize, n: usize) -> usize
    ensures value { result ≡ behind_if_room out.old at (decimal n) }
    ensures out_after { out.new ≡ put_if_room out.old at (decimal n) }
{
    if n < 100000 && has_room(out.len(), at, 5) {
        return write_short(out, at, n);
    }
    if has_room(out.len(), at, digit_count(n)) {
        return write_long(out, at, n);
    }
    at
}

// The same where it has room.
fn write_long(out: &mut [u8], at: usize, n: usize) -> usize
    requires { at + length (decimal n) ≤ length out.old }
    ensures value { result ≡ at + length (decimal n) }
    ensures out_after { out.new ≡ put_at out.old at (decimal n) }
{
    if n < 100000 {
        return write_short(out, at, n);
    }
    let to = write_long(out, at, n / 10000);
    put_four(out, to, n % 10000);
    to + 4
}

// The same for a number of five digits at most.
fn write_short(out: &mut [u8], at: usize, n: usize) -> usize
    requires n_bound { n < 100000 }
    requires n_in_bounds { at + length (decimal n) ≤ length out.old }
    ensures value { result ≡ at + length (decimal n) }
    ensures out_after { out.new ≡ put_at out.old at (decimal n) }
{
    if n < 10 {
        out[at] = 48 + n as u8;
        return at + 1;
    }
    if n < 100 {
        put_two(out, at, n as u8);
        return at + 2;
    }
    if n < 1000 {
        out[at] = 48 + (n / 100) as u8;
        put_two(out, at + 1, (n % 100) as u8);
        return at + 3;
    }
    if n < 10000 {
        put_four(out, at, n);
        return at + 4;
    }
    out[at] = 48 + (n / 10000) as u8;
    put_four(out, at + 1, n % 10000);
    at + 5
}

// Writes a number as four digits at a place, with zeros in front where it has fewer.
fn put_four(out: &mut [u8], at: usize, n: usize)
    requires { (n < 10000) × (at + 4 ≤ length out.old) }
    ensures { out.new
        ≡ put_at out.old
        at ((48 + n / 1000) ∷ (48 + n / 100 % 10) ∷ (48 + n / 10 % 10) ∷ (48 + n % 10) ∷ []) }
{
    put_two(out, at, (n / 100) as u8);
    put_two(out, at + 2, (n % 100) as u8);
}

// The same as two digits; a byte is cheaper to divide than a word.
fn put_two(out: &mut [u8], at: usize, n: u8)
    requires { (n < 100) × (at + 2 ≤ length out.old) }
    ensures { out.new ≡ put_at out.old at ((48 + n / 10) ∷ (48 + n % 10) ∷ []) }
{
    out[at] = 48 + n / 10;
    out[at + 1] = 48 + n % 10;
}
