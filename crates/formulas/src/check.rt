// The check of a formula: 9 over the whole of it, then 10.
ghost use Rattle.std.specs.Prelude.{◌≡◌};
ghost use Rattle.labels.specs.Labels.{count};
ghost use Rattle.formulas.specs.Formulas.{check_formula};
ghost use Rattle.formulas.specs.Working.{labels_fit};

use crate::forwards::count_forwards;
use crate::tree::{measured, tree_end};
use labels::label::{Label, Labels};
use labels::refusal::Refusal;

// The check of a formula of at most `limit` nodes.
pub fn check_formula(labels: Labels, limit: usize, f: &[u8]) -> Result<(), Refusal>
    ensures { result ≡ check_formula labels limit f.now }
{
    if limit < f.len() / 2 || tree_end(f) != Some(f.len()) || !labels_fit(labels, f) {
        return Err(Refusal::NotATree);
    }
    // Forward modalities nest no deeper than there are of them, so four or fewer need no measure.
    if 4 < count_forwards(f) && 4 < measured(f).nesting {
        return Err(Refusal::NestedTooDeep);
    }
    Ok(())
}

// Is each label byte a label of the call?
#[tactic(auto, using(crate::proofs::FormulaLabels::node_label, crate::proofs::FormulaLabels::no_label))]
fn labels_fit(labels: Labels, f: &[u8]) -> bool
    ensures { result ≡ labels_fit (count labels) f.now }
{
    for node in f.chunks_exact(2) {
        if !labels.has(Label(node[1])) {
            return false;
        }
    }
    true
}
