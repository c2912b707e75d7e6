// A formula as words of 16 bits, one a node, from its last node on, so that the second operand of "and" and "or" is
// found without reading the first one.
ghost use Rattle.std.specs.Prelude.{◌≡◌, true, cond, ◌-◌, ◌/◌, ◌%◌, ◌≤◌, ◌<◌, length, get_or};
ghost use Rattle.formulas.specs.Operators.{is_forward};
ghost use Rattle.formulas.specs.Working.{forwards_in};
ghost use Rattle.verdict.specs.Working.{operator_in, first_size_in, has_two, Coded, Whole, SizesIn, size_by, word_of};

use formulas::node::is_forward;

// The operator of a word's node.
pub(crate) fn operator_in(word: u16) -> u8
    ensures { result ≡ operator_in word }
{
    (word / 4096) as u8
}

// The label byte, where the operator is neither "and" nor "or".
pub(crate) fn label_in(word: u16) -> u8
    ensures { result ≡ word % 256 }
{
    (word % 256) as u8
}

// The size of the first operand, where the operator is "and" or "or".
pub(crate) fn first_size_in(word: u16) -> usize
    ensures { result ≡ first_size_in word }
{
    (word % 4096) as usize
}

// The words of a formula: word n is that of the first of its last n nodes, so there is none in place 0. Returns how
// many nodes look forward.
pub(crate) fn write_code(formula: &[u8], code: &mut [u16; 4097]) -> usize
    requires whole { Whole formula.now }
    requires code_len { length code.old ≡ 4097 }
    ensures words { Coded code.new formula.now }
    ensures forwards { result ≡ forwards_in formula.now }
{
    let forwards = write_sizes(formula, code);
    write_words(formula, code);
    forwards
}

// In place of each word the size of its tree, from the last node on. Returns how many nodes look forward.
fn write_sizes(formula: &[u8], code: &mut [u16; 4097]) -> usize
    requires whole { Whole formula.now }
    requires code_len { length code.old ≡ 4097 }
    ensures sizes { SizesIn code.new formula.now (length formula.now / 2)
        × (length code.new ≡ 4097) }
    ensures forwards { result ≡ forwards_in formula.now }
{
    // The size of the tree behind the node at hand: kept here, not read back from the list.
    let mut first: u16 = 0;
    let mut forwards: usize = 0;
    for n in 0..formula.len() / 2 {
        let operator = formula[formula.len() - 2 * n - 2];
        first = size(code, n, operator, first);
        code[n + 1] = first;
        if is_forward(operator) {
            forwards += 1;
        }
    }
    forwards
}

// The size of a tree, by its operator and the size of the tree behind its first node, where n nodes of the formula
// stand behind that one.
fn size(code: &[u16; 4097], n: usize, operator: u8, first: u16) -> u16
    requires first_le_n { (first ≤ n) × (n ≤ 4096) }
    requires first_bound { has_two operator ≡ true → get_or code.now (n - first) 0 ≤ 4096 }
    ensures { result ≡ size_by operator first (get_or code.now (n - first) 0) }
{
    if operator <= 1 {
        return 1;
    }
    if has_two(operator) {
        return 1 + first + code[n - first as usize];
    }
    1 + first
}

// From the first node on each size gives way to its node's word: the size in the place below, its first operand's, is
// still there. Of the last node, which has none, place 0 is read and not used.
fn write_words(formula: &[u8], code: &mut [u16; 4097])
    requires whole { Whole formula.now }
    requires sizes_in { SizesIn code.old formula.now (length formula.now / 2) × (length code.old ≡ 4097) }
    ensures { Coded code.new formula.now }
{
    let nodes = formula.len() / 2;
    for i in 0..nodes {
        let n = nodes - i;
        code[n] = word(formula[2 * i], formula[2 * i + 1], code[n - 1]);
    }
}

// The word of a node. `below` is the size of the tree behind it.
fn word(operator: u8, label: u8, below: u16) -> u16
    requires operator_bound { operator ≤ 8 }
    requires below_bound { has_two operator ≡ true → below < 4096 }
    ensures { result ≡ word_of operator label below }
{
    if has_two(operator) {
        return 4096 * operator as u16 + below;
    }
    4096 * operator as u16 + label as u16
}

// Is the operator "and" or "or"?
fn has_two(operator: u8) -> bool
    ensures { result ≡ has_two operator }
{
    operator == 3 || operator == 4
}
