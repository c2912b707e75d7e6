// The refusals of documents 01 and 02. A check answers `Result<(), Refusal>`, a call `Result` of what it gives: of
// checks in a row, each ended by `?`, the first that refuses decides.
ghost use Rattle.std.specs.Prelude.{◌≡◌};
ghost use Rattle.labels.specs.Refusals.{number_of};

// Why a call is refused: one case for each number of "Who can cause a refusal", then of document 02, with its number.
#[derive(Clone, Copy, PartialEq, Eq)]
pub enum Refusal {
    // 1 to 11: the author of the bytes.
    // The bytes end before the question record is complete.
    Truncated = 1,
    // Not the kind of record that is due.
    WrongKind = 2,
    // A length that the record, or the part, cannot have.
    WrongLength = 3,
    // k over 15.
    TooManyPairs = 4,
    // No state at all or over 64, or a row with a state or label out of range.
    OutOfRange = 5,
    // A row not above the one before; in an Aldebaran text, a row given twice.
    RowNotAbove = 6,
    // A ninth row from one state.
    NinthRow = 7,
    // A start state out of range, or a step not real.
    NotReal = 8,
    // A formula that is not one whole tree of its operators and labels.
    NotATree = 9,
    // Forward modalities nested over 4 deep.
    NestedTooDeep = 10,
    // Bytes after the question record.
    BytesAfter = 11,
    // 12 to 18: the caller, but for 13 and 17, which are the size of a sound case.
    // A point beyond the run.
    PointBeyond = 12,
    // Over 65,535 splittings.
    TooManySplittings = 13,
    // A splitting number not below the count.
    NoSuchSplitting = 14,
    // A half that is no run of its table.
    NotARun = 15,
    // Halves that do not match.
    HalvesDoNotMatch = 16,
    // A quotient of over 4,096 nodes.
    QuotientTooLarge = 17,
    // A lent output shorter than the answer.
    OutputTooShort = 18,
    // 19 to 21: an Aldebaran text.
    // A missing header, or a line not of the form.
    NotOfForm = 19,
    // A row count that differs from the lines, or a first state not below the states.
    WrongHeader = 20,
    // A label that is not spelled as one.
    UnknownLabel = 21,
}

impl Refusal {
    // The documents' number, 1 to 21.
    pub fn number(self) -> u8
        ensures { result ≡ number_of self }
    {
        self as u8
    }
}
