// Reading a casebook: where each part lies, or the one number of document 01's order.
ghost use Rattle.std.specs.Prelude.{◌≡◌};
ghost use Rattle.casebook.specs.Reading.{longest_casebook, case_of, read_of};

use formulas::check::check_formula;
use labels::label::Labels;
use labels::refusal::Refusal;
use machines::joint::check_joint;
use records::record::{Cursor, Record};
use tables::check::check_table;

// The length of the longest casebook.
pub const LONGEST: usize = 3825;

// The same as a function, by whose promise it is what the table of records says.
pub fn longest() -> usize
    ensures { result ≡ longest_casebook }
{
    LONGEST
}

// A casebook that was read: where the bodies of its five records lie.
#[derive(Clone, Copy)]
pub struct Parts {
    pub labels: Record,
    pub left: Record,
    pub right: Record,
    pub run: Record,
    pub question: Record,
}

impl Parts {
    // The labels that the casebook's bytes show.
    pub fn labels(self, s: &[u8]) -> Labels
        ensures { result ≡ (case_of s.now self).labels }
    {
        self.labels.labels(s)
    }
}

// Any bytes are read as a casebook whole, or refused under one number: record by record, and of each what it contains.
pub fn read(s: &[u8]) -> Result<Parts, Refusal>
    ensures { result ≡ read_of s.now }
{
    let (first, behind) = (Cursor { at: 0 }).next(s, &[1])?;
    let labels = first.labels(s);
    labels.check()?;
    let (left, behind) = behind.next(s, &[2])?;
    check_table(labels, left.body(s))?;
    let (right, behind) = behind.next(s, &[3])?;
    check_table(labels, right.body(s))?;
    let (run, behind) = behind.next(s, &[4])?;
    check_joint(labels, left.body(s), right.body(s), run.body(s))?;
    let (question, behind) = behind.next(s, &[5])?;
    check_formula(labels, 64, question.body(s))?;
    if behind.at < s.len() {
        return Err(Refusal::BytesAfter);
    }
    Ok(Parts {
        labels: first,
        left,
        right,
        run,
        question,
    })
}
