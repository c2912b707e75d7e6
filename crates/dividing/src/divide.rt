// The quotient of a question by a half run of one table.
ghost use Rattle.std.specs.Prelude.{◌≡◌, true, length, Ok};
ghost use Rattle.tables.specs.Tables.{SoundTable};
ghost use Rattle.halves.specs.Halves.{half_of, is_half_run};
ghost use Rattle.formulas.specs.Formulas.{Legal, question_limit};
ghost use Rattle.dividing.specs.Quotients.{quotient_by, check_division, answer_of, output_after};
ghost use Rattle.dividing.specs.Working.{surely_fits};

use crate::count::count_tree;
use crate::write::write_tree;
use formulas::check::check_formula;
use formulas::forwards::count_forwards;
use formulas::sizes::tree_sizes;
use halves::half::check_half;
use labels::copying::copy;
use labels::label::Labels;
use labels::refusal::Refusal;
use tables::check::check_table;

// Writes the quotient of a question by a half run of a table: 4, the table's numbers, 9 and 10, 15, then 17 and 18.
pub fn divide(
    labels: Labels,
    table: &[u8],
    half: &[u8],
    question: &[u8],
    out: &mut [u8],
) -> Result<usize, Refusal>
    ensures value { result ≡ answer_of (check_division labels table.now half.now question.now)
        (quotient_by labels table.now (half_of half.now) question.now)
        (length out.old) }
    ensures out_after { out.new
        ≡ output_after (check_division labels table.now half.now question.now)
        (quotient_by labels table.now (half_of half.now) question.now)
        out.old }
{
    check_division(labels, table, half, question)?;
    write_quotient(labels, table, half, question, out)
}

// What a division judges, in order. Where nothing is refused the table is judged once.
fn check_division(labels: Labels, table: &[u8], half: &[u8], question: &[u8]) -> Result<(), Refusal>
    ensures { result ≡ check_division labels table.now half.now
        question.now }
{
    labels.check()?;
    if let Err(refusal) = check_formula(labels, 64, question) {
        // The table's numbers come before the question's.
        check_table(labels, table)?;
        return Err(refusal);
    }
    check_half(labels, table, half)
}

// Counts the nodes first, whatever output is lent (17), then looks at the output's length (18), then writes; where
// neither can come, it only writes. The run is copied once, into a buffer with room for four steps more, and the sizes
// of the question's trees are found once.
fn write_quotient(
    labels: Labels,
    table: &[u8],
    half: &[u8],
    question: &[u8],
    out: &mut [u8],
) -> Result<usize, Refusal>
    requires sound_table { SoundTable labels table.now }
    requires half_value { is_half_run table.now half.now ≡ true }
    requires legal { Legal labels question_limit question.now }
    ensures value { result ≡ answer_of (Ok tt)
        (quotient_by labels table.now (half_of half.now) question.now)
        (length out.old) }
    ensures out_after { out.new
        ≡ output_after (Ok tt)
        (quotient_by labels table.now (half_of half.now) question.now)
        out.old }
{
    let len = half.len();
    let mut run = [0u8; 409];
    copy(half, &mut run);
    let mut sizes = [0usize; 64];
    tree_sizes(question, &mut sizes);
    if !surely_fits(question, out.len()) {
        let nodes = count_tree(labels, table, &sizes, &mut run, len, question, 4096);
        let too_large = 4096 < nodes;
        if too_large {
            return Err(Refusal::QuotientTooLarge);
        }
        if out.len() < 2 * nodes {
            return Err(Refusal::OutputTooShort);
        }
    }
    Ok(write_tree(labels, table, &sizes, &mut run, len, question, out))
}

// Is the quotient sure to fit? That of a question without forward modalities has no more nodes than the question.
#[tactic(auto, unfolding(crate::specs::Working::surely_fits))]
fn surely_fits(question: &[u8], room: usize) -> bool
    ensures { result ≡ surely_fits question.now room }
{
    question.len() <= room && count_forwards(question) == 0
}
