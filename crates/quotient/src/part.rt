// Of a left and a right part, that of the known side and that of the other.
ghost use Rattle.std.specs.Prelude.{◌≡◌};
ghost use Rattle.halves.specs.Cuts.{known_of, known_part, other_part};

use halves::side::{Known, Side};

pub(crate) fn known_part<'a>(left: &'a [u8], right: &'a [u8], side: Side) -> &'a [u8]
    ensures { result.now ≡ known_part left.now right.now (known_of side) }
{
    let known = side.known();
    match known {
        Known::Left => left,
        Known::Right => right,
    }
}

pub(crate) fn other_part<'a>(left: &'a [u8], right: &'a [u8], side: Side) -> &'a [u8]
    ensures { result.now ≡ other_part left.now right.now (known_of side) }
{
    let known = side.known();
    match known {
        Known::Left => right,
        Known::Right => left,
    }
}
