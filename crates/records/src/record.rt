// Records, and the reading position that steps over them.
ghost use Rattle.std.specs.Prelude.{◌≡◌, ◌+◌, ◌<◌, length};
ghost use Rattle.records.specs.Records.{word_at, lengths_of, fit_length};
ghost use Rattle.records.specs.Records.{may_stand, next_at, body_of, labels_of};

use labels::label::Labels;
use labels::refusal::Refusal;

// A reading position.
#[derive(Clone, Copy)]
pub struct Cursor {
    pub at: usize,
}

// A record: its kind, and where its body lies.
#[derive(Clone, Copy)]
pub struct Record {
    pub kind: usize,
    pub start: usize,
    pub len: usize,
}

impl Record {
    // The body itself, as the part of the bytes that it is; what lies past their end is not there.
    pub fn body<'a>(self, s: &'a [u8]) -> &'a [u8]
        ensures { result.now ≡ body_of s.now self }
    {
        let rest = s.get(self.start..).unwrap_or(&[]);
        &rest[..self.len.min(rest.len())]
    }

    // The labels that the first record shows: its body is k.
    #[tactic(auto, unfolding(crate::specs::Records::labels_of))]
    pub fn labels(self, s: &[u8]) -> Labels
        ensures { result ≡ labels_of s.now self }
    {
        Labels::of_pairs(s.get(self.start).copied().unwrap_or(0))
    }
}

impl Cursor {
    // Steps over one record of one of the kinds that may stand here: 1 (header), 2, 3, 1 (body).
    #[tactic(auto, using(crate::proofs::Records::fit_some), unfolding(crate::specs::Records::next_at))]
    pub fn next(self, s: &[u8], kinds: &[u8]) -> Result<(Record, Cursor), Refusal>
        ensures { result ≡ next_at s.now self.at kinds.now }
    {
        let at = self.at;
        if s.len() < at || s.len() - at < 4 {
            return Err(Refusal::Truncated);
        }
        let kind = word(s, at + 2);
        if !may_stand(kinds, kind) {
            return Err(Refusal::WrongKind);
        }
        let n = word(s, at);
        if !fits(kind, n) {
            return Err(Refusal::WrongLength);
        }
        if s.len() - at - 2 < n {
            return Err(Refusal::Truncated);
        }
        let start = at + 4;
        let len = n - 2;
        Ok((Record { kind, start, len }, Cursor { at: at + 2 + n }))
    }
}

// Is a kind one of those that may stand at a place?
fn may_stand(kinds: &[u8], kind: usize) -> bool
    ensures { result ≡ may_stand kinds.now kind }
{
    kinds.iter().any(|k| usize::from(*k) == kind)
}

// The lengths that records of a kind can have: from the shortest to the longest, a step apart.
#[derive(Clone, Copy)]
pub struct Lengths {
    pub shortest: usize,
    pub longest: usize,
    pub step: usize,
}

impl Lengths {
    // 3.
    const LABELS: Lengths = Lengths {
        shortest: 3,
        longest: 3,
        step: 1,
    };

    // 3 to 1,539, a multiple of 3.
    const TABLE: Lengths = Lengths {
        shortest: 3,
        longest: 1539,
        step: 3,
    };

    // 4 + 3 times steps, up to 604.
    const RUN: Lengths = Lengths {
        shortest: 4,
        longest: 604,
        step: 3,
    };

    // Even, 4 to 130.
    const QUESTION: Lengths = Lengths {
        shortest: 4,
        longest: 130,
        step: 2,
    };

    // No length at all.
    const NONE: Lengths = Lengths {
        shortest: 3,
        longest: 0,
        step: 1,
    };
}

// The table of records. Kinds stay numbers: `Record.kind` is one for the callers in C, and only this match asks for it.
#[tactic(auto, unfolding(crate::specs::Records::lengths_of))]
fn lengths_of(kind: usize) -> Lengths
    ensures { result ≡ lengths_of kind }
{
    match kind {
        1 => Lengths::LABELS,
        2 | 3 => Lengths::TABLE,
        4 => Lengths::RUN,
        5 => Lengths::QUESTION,
        _ => Lengths::NONE,
    }
}

// Can a record of this kind have this length?
#[tactic(auto, using(crate::proofs::Records::lengths_some), unfolding(crate::specs::Records::fit_length))]
fn fits(kind: usize, n: usize) -> bool
    ensures { result ≡ fit_length kind n }
{
    let lengths = lengths_of(kind);
    lengths.shortest <= n && n <= lengths.longest && (n - lengths.shortest) % lengths.step == 0
}

// Two bytes, the low one first.
fn word(s: &[u8], at: usize) -> usize
    requires { at + 1 < length s.now }
    ensures value { result ≡ word_at s.now at }
    ensures small { result < 65536 }
{
    usize::from(u16::from_le_bytes([s[at], s[at + 1]]))
}
