// The table of operators (specs/Operators) in code, and the nodes that checks go by. What each operator means is in
// verdict (src/code.rt, src/back.rt, src/chain.rt, src/never.rt, src/search.rt) and dividing (src/node.rt,
// src/disjuncts.rt, src/count.rt, src/write.rt).
ghost use Rattle.std.specs.Prelude.{◌≡◌};
ghost use Rattle.formulas.specs.Operators.{is_forward, is_back, is_modality, is_connective, takes_label};
ghost use Rattle.formulas.specs.Working.{node_of};

// The node of an operator and a label byte, which is 0 where the operator takes no label.
#[tactic(auto, using(crate::proofs::Nodes::label_node, crate::proofs::Nodes::set_bad))]
pub(crate) fn read_node(operator: u8, label: u8) -> Option<usize>
    ensures { result ≡ node_of operator label }
{
    if label != 0 && !takes_label(operator) {
        return None;
    }
    operands(operator)
}

// The node of an operator whose label byte fits: how many operands it has.
#[tactic(auto, using(crate::proofs::Nodes::bare_nodes))]
pub fn operands(operator: u8) -> Option<usize>
    ensures { result ≡ node_of operator 0 }
{
    match operator {
        0 | 1 => Some(0),
        3 | 4 => Some(2),
        2 | 5..=8 => Some(1),
        _ => None,
    }
}

// Operators 5 and 6 take a label.
#[tactic(auto, using(crate::proofs::OperatorTable::label_numbers))]
pub fn takes_label(operator: u8) -> bool
    ensures { result ≡ takes_label operator }
{
    matches!(operator, 5 | 6)
}

// Operators 5 and 7 look forward.
#[tactic(auto, using(crate::proofs::OperatorTable::forward_numbers))]
pub fn is_forward(operator: u8) -> bool
    ensures { result ≡ is_forward operator }
{
    matches!(operator, 5 | 7)
}

// Operators 6 and 8 look back. (By `matches!` the compiler asks for both kinds of operators that a verdict goes on from
// at once: an "or" over 2,047 times false took 12.9 million instructions for 9.2.)
#[tactic(auto, using(crate::proofs::OperatorTable::back_numbers))]
pub fn is_back(operator: u8) -> bool
    ensures { result ≡ is_back operator }
{
    operator == 6 || operator == 8
}

// The modalities look forward or back.
#[tactic(auto, using(crate::proofs::OperatorTable::forward_numbers, crate::proofs::OperatorTable::back_numbers), unfolding(crate::specs::Operators::is_modality))]
pub fn is_modality(operator: u8) -> bool
    ensures { result ≡ is_modality operator }
{
    matches!(operator, 5..=8)
}

// Is the operator "not", "and" or "or"?
#[tactic(auto, using(crate::proofs::OperatorTable::connective_numbers))]
pub fn is_connective(operator: u8) -> bool
    ensures { result ≡ is_connective operator }
{
    matches!(operator, 2..=4)
}
