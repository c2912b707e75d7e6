// The answer of a verdict, and how both calls come to it.
ghost use Rattle.std.specs.Prelude.{◌≡◌, ◌≤◌, length, take};
ghost use Rattle.hml.specs.Lists.{present};
ghost use Rattle.machines.specs.Joints.{joint_of};
ghost use Rattle.machines.specs.Working.{Tables, Held};
ghost use Rattle.formulas.specs.Formulas.{formula_of, quotient_limit, Legal};
ghost use Rattle.verdict.specs.Verdicts.{verdict_of};
ghost use Rattle.verdict.specs.Working.{tables_hold};

use crate::chain::judge_chain;
use crate::code::write_code;
use crate::grids::look_up;
use crate::search::holds;
use labels::label::Labels;
use labels::refusal::Refusal;

// The verdict on the run in the first len bytes of a buffer that has room for four steps more. A chain is judged first:
// where it tells the verdict, no memory is cleared for words and rows.
pub(crate) fn verdict_on(
    labels: Labels,
    left: &[u8],
    right: &[u8],
    run: &mut [u8; 614],
    len: usize,
    formula: &[u8],
) -> Result<bool, Refusal>
    requires tables { Tables labels left.now right.now }
    requires held { Held run.old len × (len ≤ 602) × (length run.old ≡ 614) }
    requires legal { Legal labels quotient_limit formula.now }
    ensures { result ≡ verdict_of (present
        (λ φ. tables_hold labels left.now right.now φ (joint_of (take len run.old)))
        (formula_of formula.now)) }
{
    match judge_chain(run, len, formula) {
        Some(holds) => Ok(holds),
        None => verdict_by_words(labels, left, right, run, len, formula),
    }
}

// The same for any formula. Its words, and the rows of each state if it looks ahead, are found once, so that no state's
// rows are searched for and no operand is read to find the one behind it.
fn verdict_by_words(
    labels: Labels,
    left: &[u8],
    right: &[u8],
    run: &mut [u8; 614],
    len: usize,
    formula: &[u8],
) -> Result<bool, Refusal>
    requires tables { Tables labels left.now right.now }
    requires held { Held run.old len × (len ≤ 602) × (length run.old ≡ 614) }
    requires legal { Legal labels quotient_limit formula.now }
    ensures { result ≡ verdict_of (present
        (λ φ. tables_hold labels left.now right.now φ (joint_of (take len run.old)))
        (formula_of formula.now)) }
{
    let mut code = [0u16; 4097];
    let forwards = write_code(formula, &mut code);
    let mut grids = [0u8; 2176];
    look_up(labels, left, right, forwards, &mut grids);
    let held = holds(labels, &grids, &code, run, len, formula.len() / 2);
    Ok(held)
}
