// Trees that are seen to hold nowhere: false behind an even number of "not"s, true behind an odd one.
ghost use Rattle.std.specs.Prelude.{◌≡◌, ◌≤◌, true};
ghost use Rattle.formulas.specs.Working.{Tree};
ghost use Rattle.verdict.specs.Working.{text_of, Never};

use crate::code::operator_in;

// Is the tree that the last `nodes` nodes begin with seen to fail on every run? Other trees may do so, too.
pub(crate) fn fails_everywhere(code: &[u16; 4097], nodes: usize) -> bool
    requires { Tree (text_of code.now nodes) × (nodes ≤ 4096) }
    ensures { result ≡ true → Never code.now nodes }
{
    // Words stand from the last node to the first, so this goes down to the first that is no "not".
    let mut nodes = nodes;
    let mut even = true;
    while operator_in(code[nodes]) == 2 {
        even = !even;
        nodes -= 1;
    }
    match operator_in(code[nodes]) {
        0 => !even,
        1 => even,
        _ => false,
    }
}
