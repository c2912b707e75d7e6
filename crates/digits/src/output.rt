// Room in an output.
ghost use Rattle.std.specs.Prelude.{◌≡◌, ◌+◌, leb};

// Whether so many bytes have room in an output of a length, from a place on.
pub(crate) fn has_room(room: usize, at: usize, len: usize) -> bool
    ensures { result ≡ leb (at + len) room }
{
    at <= room && len <= room - at
}
