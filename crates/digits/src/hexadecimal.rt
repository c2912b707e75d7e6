// Bytes in hexadecimal.
ghost use Rattle.std.specs.Prelude.{◌≡◌, ◌+◌, ◌*◌, ◌≤◌, ◌<◌, length};
ghost use Rattle.digits.specs.Digits.{hexadecimal, hex_digit};
ghost use Rattle.digits.specs.Outputs.{put_at, put_if_room, behind_if_room};

use crate::output::has_room;

// Writes bytes in hexadecimal at a place, and gives the place behind them. Where they have no room, the output is as
// before and the answer is the same place.
pub fn put_hexadecimal(out: &mut [u8], at: usize, bytes: &[u8]) -> usize
    ensures value { result ≡ behind_if_room out.old at (hexadecimal bytes.now) }
    ensures out_after { out.new ≡ put_if_room out.old at (hexadecimal bytes.now) }
{
    let len = 2 * bytes.len();
    if has_room(out.len(), at, len) {
        write_hexadecimal(out, at, bytes);
        return at + len;
    }
    at
}

// The same where they have room.
fn write_hexadecimal(out: &mut [u8], at: usize, bytes: &[u8])
    requires { at + 2 * length bytes.now ≤ length out.old }
    ensures { out.new ≡ put_at out.old at (hexadecimal bytes.now) }
{
    for (i, byte) in bytes.iter().enumerate() {
        out[at + 2 * i] = hex_digit(byte / 16);
        out[at + 2 * i + 1] = hex_digit(byte % 16);
    }
}

// A hexadecimal digit.
fn hex_digit(d: u8) -> u8
    requires { d < 16 }
    ensures { result ≡ hex_digit d }
{
    if d < 10 { b'0' + d } else { b'a' + (d - 10) }
}
