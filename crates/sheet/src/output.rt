// Standard output, as far as the lines of a sheet were handed to it.
ghost use Rattle.std.specs.Prelude.{◌≡◌, true, ◌++◌, ◌≤◌, length, take};
ghost use Rattle.sheet_lines.specs.Sheets.{sheet_of, bytes_of};

// The lines in front of line `next` were handed over, one after the other, and `taken` if standard output took them
// all. Its fields are known in this file only, so nothing else can say so without `hand_over`.
#[derive(Clone, Copy)]
pub(crate) struct Printed {
    next: usize,
    taken: bool,
}

impl Printed {
    // No line was handed over yet.
    pub(crate) fn nothing() -> Printed
        ensures { result ≡ record { next = 0; taken = true } }
    {
        Printed {
            next: 0,
            taken: true,
        }
    }

    // The line that comes next.
    pub(crate) fn next(self) -> usize
        ensures { result ≡ self.next }
    {
        self.next
    }

    // Did standard output take all?
    pub(crate) fn is_taken(self) -> bool
        ensures { result ≡ self.taken }
    {
        self.taken
    }

    // Hands over the first bytes of `out`: behind those of the lines that were handed over before, they are the bytes
    // of the lines in front of line `next`.
    pub(crate) fn hand_over(
        self,
        rt: &impl Print,
        casebook: &[u8],
        next: usize,
        out: &[u8],
        bytes: usize,
    ) -> Printed
        requires taken_value { self.taken ≡ true }
        requires out_value { bytes_of (take self.next (sheet_of casebook.now)) ++ take bytes out.now
            ≡ bytes_of (take next (sheet_of casebook.now)) }
        requires bytes_in_bounds { bytes ≤ length out.now }
        ensures { result.next ≡ next }
    {
        let taken = rt.write_all(&out[..bytes]).is_ok();
        Printed { next, taken }
    }
}
