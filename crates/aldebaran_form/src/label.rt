// Labels as they are spelled: i, a1!, a1? and so on to a15?.
ghost use Rattle.std.specs.Prelude.{◌≡◌, [], ◌∷◌, ◌++◌, ◌≤◌};
ghost use Rattle.digits.specs.Digits.{decimal};
ghost use Rattle.aldebaran_form.specs.Lines.{label_of};
ghost use Rattle.aldebaran_form.specs.Working.{label_found};

use labels::label::Label;

// The label that these bytes spell.
#[tactic(auto, using(crate::proofs::LabelReading::by_length))]
pub fn label_of(bytes: &[u8]) -> Option<Label>
    ensures { result ≡ label_found (label_of bytes.now) }
{
    match bytes {
        [b'i'] => Some(Label::SILENT),
        [letter, digit, mark] => low_label(*letter, *digit, *mark),
        [letter, ten, digit, mark] => high_label(*letter, *ten, *digit, *mark),
        _ => None,
    }
}

// a1! to a9?
#[tactic(auto, using(crate::proofs::LabelReading::low_outside))]
fn low_label(letter: u8, digit: u8, mark: u8) -> Option<Label>
    ensures { result ≡ label_found (label_of (letter ∷ digit ∷ mark ∷ [])) }
{
    if letter != b'a' || digit < b'1' || b'9' < digit {
        return None;
    }
    marked(digit - b'0', mark)
}

// a10! to a15?
#[tactic(auto, using(crate::proofs::LabelReading::high_outside))]
fn high_label(letter: u8, ten: u8, digit: u8, mark: u8) -> Option<Label>
    ensures { result ≡ label_found (label_of (letter ∷ ten ∷ digit ∷ mark ∷ [])) }
{
    if letter != b'a' || ten != b'1' || digit < b'0' || b'5' < digit {
        return None;
    }
    marked(digit - b'0' + 10, mark)
}

// The label of a pair with its mark: ! (33) for the first, ? (63) for the second. Either is as likely as the other, so
// they are told apart without a branch.
fn marked(pair: u8, mark: u8) -> Option<Label>
    requires { (1 ≤ pair) × (pair ≤ 15) }
    ensures { result ≡ label_found (label_of (97 ∷ (decimal pair ++ (mark ∷ [])))) }
{
    let second = mark / 63;
    if mark != 33 + 30 * second {
        return None;
    }
    Some(Label(2 * pair + second - 1))
}
