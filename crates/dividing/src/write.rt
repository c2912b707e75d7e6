// The bytes of a quotient, written into an output that has room for them.
ghost use Rattle.std.specs.Prelude.{◌≡◌, true, ◌-◌, ◌≤◌, length, get_or, take};
ghost use Rattle.labels.specs.Refusals.{in_front};
ghost use Rattle.tables.specs.Tables.{SoundTable};
ghost use Rattle.halves.specs.Halves.{half_of};
ghost use Rattle.formulas.specs.Operators.{is_forward, is_modality};
ghost use Rattle.dividing.specs.Working.{Ready, Listed, text, texts, first_text};

use crate::disjuncts::list_disjuncts;
use crate::node::{past_node, put_node};
use formulas::node::{is_forward, is_modality};
use labels::label::{Label, Labels};

// Writes the quotient of the first tree of f by the run in the first len bytes. Gives how many bytes it has.
#[cycle(writing)]
pub(crate) fn write_tree(
    labels: Labels,
    table: &[u8],
    sizes: &[usize; 64],
    run: &mut [u8; 409],
    len: usize,
    f: &[u8],
    out: &mut [u8],
) -> usize
    requires sound_table { SoundTable labels table.now }
    requires ready { Ready sizes.now run.old len 0 f.now }
    requires run_in_bounds { length (text labels table.now f.now (half_of (take len run.old))) ≤ length out.old }
    ensures value { result ≡ length (text labels table.now f.now
        (half_of (take len run.old))) }
    ensures out_after { out.new ≡ in_front (text labels table.now f.now
        (half_of (take len run.old))) out.old }
    ensures run_unchanged { run.new ≡ run.old }
{
    let operator = f[0];
    if is_modality(operator) {
        return write_modal(labels, table, sizes, run, len, f, out);
    }
    put_node(out, operator, 0);
    if operator < 2 {
        return 2;
    }
    let n = write_tree(labels, table, sizes, run, len, &f[2..], &mut out[2..]);
    let at = 2 + n;
    if operator == 2 {
        return at;
    }
    // The second operand begins where the first one ends.
    let size = sizes[f.len() / 2 - 2];
    let second = &f[2 * size + 2..];
    let m = write_tree(labels, table, sizes, run, len, second, &mut out[at..]);
    at + m
}

// The same for a modality.
#[cycle(writing)]
fn write_modal(
    labels: Labels,
    table: &[u8],
    sizes: &[usize; 64],
    run: &mut [u8; 409],
    len: usize,
    f: &[u8],
    out: &mut [u8],
) -> usize
    requires sound_table { SoundTable labels table.now }
    requires ready { Ready sizes.now run.old len 0 f.now }
    requires f_value { is_modality (get_or f.now 0 0) ≡ true }
    requires run_in_bounds { length (text labels table.now f.now (half_of (take len run.old))) ≤ length out.old }
    ensures value { result ≡ length (text labels table.now f.now
        (half_of (take len run.old))) }
    ensures out_after { out.new ≡ in_front (text labels table.now f.now
        (half_of (take len run.old))) out.old }
    ensures run_unchanged { run.new ≡ run.old }
{
    let operator = f[0];
    if is_forward(operator) {
        return write_forward(labels, table, sizes, run, len, f, out);
    }
    let bytes: &[u8] = run;
    match past_node(labels, operator, Label(f[1]), &bytes[..len]) {
        Some(node) => {
            put_node(out, node.operator, node.label.0);
            let n = write_tree(labels, table, sizes, run, len - 2, &f[2..], &mut out[2..]);
            2 + n
        }
        None => {
            put_node(out, 1, 0);
            2
        }
    }
}

// The same for a forward modality.
#[cycle(writing)]
fn write_forward(
    labels: Labels,
    table: &[u8],
    sizes: &[usize; 64],
    run: &mut [u8; 409],
    len: usize,
    f: &[u8],
    out: &mut [u8],
) -> usize
    requires sound_table { SoundTable labels table.now }
    requires ready { Ready sizes.now run.old len 0 f.now }
    requires f_value { is_forward (get_or f.now 0 0) ≡ true }
    requires run_in_bounds { length (text labels table.now f.now (half_of (take len run.old))) ≤ length out.old }
    ensures value { result ≡ length (text labels table.now f.now
        (half_of (take len run.old))) }
    ensures out_after { out.new ≡ in_front (text labels table.now f.now
        (half_of (take len run.old))) out.old }
    ensures run_unchanged { run.new ≡ run.old }
{
    let mut disjuncts = [0u8; 68];
    let n = list_disjuncts(
        labels,
        table,
        f[0],
        Label(f[1]),
        run[len - 1],
        &mut disjuncts,
    );
    write_disjuncts(
        labels,
        table,
        sizes,
        run,
        len,
        &disjuncts[..n],
        &f[2..],
        out,
    )
}

// Writes disjuncts joined by "or" to the right: each after the one before it, in the rest of the output.
#[cycle(writing)]
fn write_disjuncts(
    labels: Labels,
    table: &[u8],
    sizes: &[usize; 64],
    run: &mut [u8; 409],
    len: usize,
    disjuncts: &[u8],
    f: &[u8],
    out: &mut [u8],
) -> usize
    requires sound_table { SoundTable labels table.now }
    requires ready { Ready sizes.now run.old len 1 f.now }
    requires listed { Listed (get_or run.old (len - 1) 0) disjuncts.now }
    requires disjuncts_in_bounds { length (texts labels table.now f.now (half_of (take len run.old)) disjuncts.now) ≤ length
        out.old }
    ensures value { result ≡ length (texts labels table.now f.now
        (half_of (take len run.old)) disjuncts.now) }
    ensures out_after { out.new ≡ in_front (texts labels table.now f.now
        (half_of (take len run.old)) disjuncts.now) out.old }
    ensures run_unchanged { run.new ≡ run.old }
{
    if disjuncts.len() < 8 {
        return write_disjunct(labels, table, sizes, run, len, disjuncts, f, out);
    }
    put_node(out, 4, 0);
    let n = write_disjunct(labels, table, sizes, run, len, disjuncts, f, &mut out[2..]);
    let at = 2 + n;
    let m = write_disjuncts(
        labels,
        table,
        sizes,
        run,
        len,
        &disjuncts[4..],
        f,
        &mut out[at..],
    );
    at + m
}

// Writes the first disjunct: its node, then the quotient by the run with one step more. The buffer is as before when
// this returns.
#[cycle(writing)]
fn write_disjunct(
    labels: Labels,
    table: &[u8],
    sizes: &[usize; 64],
    run: &mut [u8; 409],
    len: usize,
    disjuncts: &[u8],
    f: &[u8],
    out: &mut [u8],
) -> usize
    requires sound_table { SoundTable labels table.now }
    requires ready { Ready sizes.now run.old len 1 f.now }
    requires listed { Listed (get_or run.old (len - 1) 0) disjuncts.now }
    requires disjuncts_in_bounds { length (first_text labels table.now f.now (half_of (take len run.old)) disjuncts.now) ≤ length
        out.old }
    ensures value { result ≡ length (first_text labels table.now f.now
        (half_of (take len run.old)) disjuncts.now) }
    ensures out_after { out.new ≡ in_front (first_text labels table.now f.now
        (half_of (take len run.old)) disjuncts.now) out.old }
    ensures run_unchanged { run.new ≡ run.old }
{
    put_node(out, disjuncts[0], disjuncts[1]);
    let a = run[len];
    let b = run[len + 1];
    run[len] = disjuncts[2];
    run[len + 1] = disjuncts[3];
    let n = write_tree(labels, table, sizes, run, len + 2, f, &mut out[2..]);
    run[len] = a;
    run[len + 1] = b;
    2 + n
}
