// The right halves of the splittings of a window's two parts, kept in a table: from them the half of each splitting of
// the window is put together.
ghost use Rattle.std.specs.Prelude.{◌≡◌, ◌++◌, ◌+◌, ◌*◌, ◌/◌, ◌%◌, ◌≤◌, ◌<◌, length, take, drop};
ghost use Rattle.splitting.specs.Splittings.{splitting_limit};
ghost use Rattle.sheet_lines.specs.Working.{shown, put_at, ways_of, half_in, quotient_in, output_in, Splits, Asked};
ghost use Rattle.sheet_lines.specs.Working.{HalvesAt, Halved};

use crate::case::Case;
use dividing::divide::divide;
use halves::side::Side;
use labels::copying::copy;
use labels::refusal::Refusal;
use quotient::number::by_number;
use splitting::split::split;

// How the halves of a window are kept: the steps of its older and of its newer part, and how many splittings the newer
// part has; 0 if none are kept.
#[derive(Clone, Copy)]
pub(crate) struct Kept {
    pub older: usize,
    pub newer: usize,
    pub ways: usize,
}

// Keeps the halves of both parts of a window, at most 256 each, if the window has so many splittings that it is worth
// it.
pub(crate) fn keep_halves(window: Case, ways: usize, halves: &mut [u8]) -> Kept
    requires { Splits (shown window) × (length halves.old ≡ 205312) }
    ensures { Halved (shown window.entry) result halves.new }
{
    let none = Kept {
        older: 0,
        newer: 0,
        ways: 0,
    };
    if ways < 64 {
        return none;
    }
    let steps = window.steps();
    let mid = middle(window, steps, ways);
    let older = window.part(0, mid);
    let newer = window.part(mid, steps);
    let older_ways = older.splittings();
    let newer_ways = newer.splittings();
    if 256 < older_ways {
        return none;
    }
    if 256 < newer_ways {
        return none;
    }
    list_halves(older, older_ways, 0, halves);
    list_halves(newer, newer_ways, 256, halves);
    Kept {
        older: mid,
        newer: steps - mid,
        ways: newer_ways,
    }
}

// Where to cut a window: its newer part has about as many splittings as the older one. Any place would do.
fn middle(window: Case, steps: usize, ways: usize) -> usize
    requires { 3 * steps + 2 ≤ length (shown window).run }
    ensures within { result ≤ steps }
{
    // Halved by hand: std's `partition_point` is for slices, and a place's splittings are counted, not listed.
    let mut low: usize = 0;
    let mut high = steps;
    while low < high {
        let mid = low + (high - low) / 2;
        let newer = window.part(mid, steps).splittings();
        if newer * newer <= ways {
            high = mid;
        } else {
            low = mid + 1;
        }
    }
    low
}

// Writes the right halves of the first n splittings of a case to the table, from the place `first` on. What stands in
// front of it is kept.
fn list_halves(case: Case, n: usize, first: usize, halves: &mut [u8])
    requires splits { Splits (shown case) × (n ≤ ways_of (shown case)) }
    requires n_bound { (n ≤ 256) × (first ≤ 256) × (length halves.old ≡ 205312) }
    ensures halves_at { HalvesAt (shown case.entry) halves.new first n }
    ensures halves_unchanged { take (401 * first) halves.new ≡ take (401 * first) halves.old }
{
    for i in 0..n {
        list_half(case, i, first + i, halves);
    }
}

// Writes the right half of splitting i of a case to a place of the table.
fn list_half(case: Case, i: usize, place: usize, halves: &mut [u8])
    requires splits { Splits (shown case) × (i < ways_of (shown case)) }
    requires place_bound { (place < 512) × (length halves.old ≡ 205312) }
    ensures { halves.new
        ≡ put_at halves.old (401 * place) (half_in (shown case.entry) i) }
{
    let labels = case.labels();
    let mut spare = [0u8; 401];
    // The halves have room, and there are more splittings than i, so nothing is refused.
    let _ = split(
        labels,
        case.left(),
        case.right(),
        case.run(),
        i,
        &mut spare,
        &mut halves[401 * place..],
    );
}

// Writes the quotient by the right half of splitting t of a window, at the window's end: with the halves that are kept,
// or as the public call does.
pub(crate) fn quotient_text(
    case: Case,
    t: usize,
    kept: Kept,
    halves: &[u8],
    text: &mut [u8],
) -> Result<usize, Refusal>
    requires asked { Asked (shown case) × (t < ways_of (shown case))
        × (ways_of (shown case) ≤ splitting_limit) }
    requires halved { Halved (shown case) kept halves.now × (length text.old ≡ 8192) }
    ensures value { result ≡ quotient_in (shown case.entry) t (length text.old) }
    ensures text_after { text.new ≡ output_in (shown case.entry) t text.old }
{
    let labels = case.labels();
    let window = case.run();
    let points = window.len() / 3;
    if kept.ways == 0 {
        return by_number(
            labels,
            case.left(),
            case.right(),
            window,
            case.question(),
            t,
            Side::Right,
            points,
            text,
        );
    }
    let mut half = [0u8; 401];
    let len = put_half(t, kept, halves, &mut half);
    divide(labels, case.right(), &half[..len], case.question(), text)
}

// Puts the right half of splitting t of a window together, and gives its length: the half of the older part, then the
// steps of the half of the newer part.
fn put_half(t: usize, kept: Kept, halves: &[u8], half: &mut [u8]) -> usize
    requires ways_nonzero { (0 < kept.ways) × (kept.ways ≤ 256) × (t / kept.ways < 256) }
    requires newer_bound { (kept.older + kept.newer ≤ 200) × (length halves.now ≡ 205312) × (length half.old ≡ 401) }
    ensures value { result ≡ 2 * kept.older + 1 + 2 * kept.newer }
    ensures half_after { take result half.new
        ≡ take (2 * kept.older + 1) (drop (401 * (t / kept.ways)) halves.now)
        ++ take (2 * kept.newer) (drop (401 * (256 + t % kept.ways) + 1) halves.now) }
{
    let ways = kept.ways;
    let older = t / ways;
    let newer = t % ways;
    let n = 2 * kept.older + 1;
    let m = 2 * kept.newer;
    let from = 401 * older;
    let then = 401 * (256 + newer) + 1;
    copy(&halves[from..from + n], half);
    copy(&halves[then..then + m], &mut half[n..]);
    n + m
}
