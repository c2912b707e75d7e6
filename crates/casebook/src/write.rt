// Writing a casebook from its parts.
ghost use Rattle.std.specs.Prelude.{◌≡◌, ◌+◌, ◌≤◌, ◌<◌, length};
ghost use Rattle.labels.specs.Refusals.{in_front};
ghost use Rattle.machines.specs.Cases.{case_with};
ghost use Rattle.records.specs.Records.{record_bytes};
ghost use Rattle.casebook.specs.Writing.{casebook_bytes, check_parts, write_of, written_of};
ghost use Rattle.casebook.specs.Working.{Fitting};

use formulas::check::check_formula;
use labels::copying::copy;
use labels::label::Labels;
use labels::refusal::Refusal;
use machines::joint::check_joint;

// Writes the casebook of these parts; nothing if it is refused.
pub fn write(
    labels: Labels,
    left: &[u8],
    right: &[u8],
    run: &[u8],
    question: &[u8],
    out: &mut [u8],
) -> Result<usize, Refusal>
    ensures value { result ≡ write_of (case_with labels left.now right.now run.now
        question.now) (length out.old) }
    ensures out_after { out.new
        ≡ written_of (case_with labels left.now right.now run.now
        question.now)
        out.old }
{
    check_parts(labels, left, right, run, question)?;
    let total = 21 + left.len() + right.len() + run.len() + question.len();
    if out.len() < total {
        return Err(Refusal::OutputTooShort);
    }
    put_casebook(labels, left, right, run, question, out);
    Ok(total)
}

// The parts' numbers, in record order.
fn check_parts(
    labels: Labels,
    left: &[u8],
    right: &[u8],
    run: &[u8],
    question: &[u8],
) -> Result<(), Refusal>
    ensures { result ≡ check_parts (case_with labels left.now right.now run.now
        question.now) }
{
    labels.check()?;
    check_joint(labels, left, right, run)?;
    check_formula(labels, 64, question)
}

// The five records, one after the other.
fn put_casebook(
    labels: Labels,
    left: &[u8],
    right: &[u8],
    run: &[u8],
    question: &[u8],
    out: &mut [u8],
)
    requires { Fitting left.now right.now run.now question.now out.old }
    ensures { out.new
        ≡ in_front (casebook_bytes (case_with labels left.now right.now run.now
        question.now)) out.old }
{
    let pairs = [labels.pairs];
    put_record(&mut out[0..], 1, &pairs);
    put_record(&mut out[5..], 2, left);
    let third = 9 + left.len();
    put_record(&mut out[third..], 3, right);
    let fourth = third + 4 + right.len();
    put_record(&mut out[fourth..], 4, run);
    let fifth = fourth + 4 + run.len();
    put_record(&mut out[fifth..], 5, question);
}

// One record: its length and kind, then its body.
fn put_record(out: &mut [u8], kind: u8, body: &[u8])
    requires { (4 + length body.now ≤ length out.old) × (length body.now < 65534) }
    ensures { out.new ≡ in_front (record_bytes kind body.now) out.old }
{
    let n = body.len() + 2;
    out[0] = (n % 256) as u8;
    out[1] = (n / 256 % 256) as u8;
    out[2] = kind;
    out[3] = 0;
    copy(body, &mut out[4..]);
}
