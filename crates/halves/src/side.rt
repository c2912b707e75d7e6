// The known side, and the cut: the known half up to a point.
ghost use Rattle.std.specs.Prelude.{◌≡◌};
ghost use Rattle.halves.specs.Cuts.{known_of, cut_of, prefix_of};

// The known side as a caller names it, or does not. No Option of a side: "unnamed" is a choice of its own, which the
// left half answers.
#[derive(Clone, Copy)]
pub enum Side {
    Unnamed,
    Left,
    Right,
}

// The side whose half is known.
#[derive(Clone, Copy)]
pub enum Known {
    Left,
    Right,
}

impl Side {
    // What "unnamed" means stands here and nowhere else.
    pub fn known(self) -> Known
        ensures { result ≡ known_of self }
    {
        match self {
            Side::Unnamed => Known::Left,
            Side::Left => Known::Left,
            Side::Right => Known::Right,
        }
    }
}

// The known half up to the point, as a part of whichever lent half it is; empty where refused (12).
#[tactic(auto, unfolding(crate::specs::Cuts::cut_of))]
pub fn cut<'a>(left: &'a [u8], right: &'a [u8], side: Side, point: usize) -> &'a [u8]
    ensures { result.now ≡ cut_of left.now right.now side point }
{
    match side.known() {
        Known::Left => prefix(left, point),
        Known::Right => prefix(right, point),
    }
}

// The start state and the first `point` steps, or nothing where there are not so many.
#[tactic(auto, unfolding(crate::specs::Cuts::prefix_of, crate::specs::Cuts::beyond))]
fn prefix<'a>(half: &'a [u8], point: usize) -> &'a [u8]
    ensures { result.now ≡ prefix_of half.now point }
{
    let n = half.len();
    if n % 2 == 0 || n / 2 < point {
        return &half[..0];
    }
    &half[..2 * point + 1]
}
