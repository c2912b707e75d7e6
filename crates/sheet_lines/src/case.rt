// A case as the bytes of a casebook show it: the count of its splittings, and parts of its run.
ghost use Rattle.std.specs.Prelude.{◌≡◌, ◌+◌, ◌*◌, ◌/◌, ◌≤◌, length};
ghost use Rattle.sheet_lines.specs.Working.{shown, count_in, counted_as, between};

use casebook::read::Parts;
use labels::label::Labels;
use labels::refusal::Refusal;
use records::record::Record;
use splitting::count::count;

// The bytes of a casebook, and where the parts of a case lie in them.
#[derive(Clone, Copy)]
pub(crate) struct Case<'a> {
    pub bytes: &'a [u8],
    pub parts: Parts,
}

impl<'a> Case<'a> {
    pub(crate) fn labels(self) -> Labels
        ensures { result ≡ (shown self.entry).labels }
    {
        self.parts.labels(self.bytes)
    }

    pub(crate) fn left(self) -> &'a [u8]
        ensures { result.now ≡ (shown self.entry).left }
    {
        self.parts.left.body(self.bytes)
    }

    pub(crate) fn right(self) -> &'a [u8]
        ensures { result.now ≡ (shown self.entry).right }
    {
        self.parts.right.body(self.bytes)
    }

    pub(crate) fn run(self) -> &'a [u8]
        ensures { result.now ≡ (shown self.entry).run }
    {
        self.parts.run.body(self.bytes)
    }

    pub(crate) fn question(self) -> &'a [u8]
        ensures { result.now ≡ (shown self.entry).question }
    {
        self.parts.question.body(self.bytes)
    }

    // How many splittings its log has, or why they are not counted.
    pub(crate) fn count(self) -> Result<usize, Refusal>
        ensures { result ≡ count_in (shown self.entry) }
    {
        count(self.labels(), self.left(), self.right(), self.run())
    }

    // The same as a number; 1 where the count is refused.
    pub(crate) fn splittings(self) -> usize
        ensures { result ≡ counted_as (count_in (shown self.entry)) }
    {
        self.count().unwrap_or(1)
    }

    // The steps of its log; it has a point more.
    pub(crate) fn steps(self) -> usize
        ensures { result ≡ length (shown self.entry).run / 3 }
    {
        self.run().len() / 3
    }

    // The case whose run is that from one point to another: in the bytes a state pair stands in front of each step.
    pub(crate) fn part(self, from: usize, to: usize) -> Case<'a>
        requires { (from ≤ to) × (3 * to + 2 ≤ length (shown self).run) }
        ensures { shown result ≡ between (shown self.entry) from to }
    {
        let run = Record {
            start: self.parts.run.start + 3 * from,
            len: 3 * (to - from) + 2,
            ..self.parts.run
        };
        let parts = Parts { run, ..self.parts };
        Case { parts, ..self }
    }
}
