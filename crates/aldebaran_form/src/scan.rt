// Reading a text from left to right: what stands at a place, and the place behind it. Where what is due does not stand
// there, the place behind it is nowhere: beyond the text's end.
ghost use Rattle.std.specs.Prelude.{◌≡◌, [], ◌∷◌, ◌+◌, ◌≤◌, length, drop};
ghost use Rattle.aldebaran_form.specs.Lines.{next, behind, number_in};
ghost use Rattle.aldebaran_form.specs.Working.{rest_at, number_at, number_from, label_to};

// A number, and the place behind it.
#[derive(Clone, Copy)]
pub(crate) struct Number {
    pub(crate) value: usize,
    pub(crate) end: usize,
}

impl Number {
    // No number: the place behind it is beyond the text's end.
    fn nowhere(text: &[u8]) -> Number
        ensures { result ≡ record { value = 0; end = length text.now + 1 } }
    {
        Number {
            value: 0,
            end: text.len() + 1,
        }
    }
}

// The place behind a byte that is due at a place.
pub(crate) fn past(text: &[u8], at: usize, byte: u8) -> usize
    ensures { rest_at text.now result ≡ next (rest_at text.now at) (behind (byte ∷ [])) }
{
    if at < text.len() && text[at] == byte {
        return at + 1;
    }
    text.len() + 1
}

// The number that is due at a place: one to five digits without a zero in front.
pub(crate) fn number_at(text: &[u8], at: usize) -> Number
    ensures { number_at text.now result ≡ next (rest_at text.now at) number_in }
{
    if text.len() <= at || !text[at].is_ascii_digit() {
        return Number::nowhere(text);
    }
    number_from(text, at + 1, usize::from(text[at] - b'0'))
}

// The number whose first digit, in front of a place, has a value: no digit follows a 0, and five are the most. It does
// not begin with 0, so a value over 9999 has five.
fn number_from(text: &[u8], at: usize, first: usize) -> Number
    requires { at ≤ length text.now }
    ensures { number_at text.now result ≡ number_from first (drop at text.now) }
{
    // A chain over the digits would be no plainer: the place behind them is half of what is asked for.
    let mut value = first;
    let mut end = at;
    while end < text.len() && text[end].is_ascii_digit() {
        if value == 0 || 9999 < value {
            return Number::nowhere(text);
        }
        value = 10 * value + usize::from(text[end] - b'0');
        end += 1;
    }
    Number { value, end }
}

// The place of the next double quote or line feed from a place on, or the text's end; a place beyond it is kept.
// `position` would be no plainer: the place may lie beyond the end, and is what is asked for.
pub(crate) fn quote_from(text: &[u8], at: usize) -> usize
    ensures { result ≡ at + length (label_to (drop at text.now)) }
{
    let mut end = at;
    while end < text.len() && text[end] != b'"' && text[end] != b'\n' {
        end += 1;
    }
    end
}
