// How many nodes a quotient has, counted without a tree, and no further than to one above a limit.
// It walks as write.rt does; one walk for both would lend a count an output, or hold the writing to a limit. The run
// lies in an array of fixed size with its length beside it: it grows and shrinks by a step, and C lends no allocator.
ghost use Rattle.std.specs.Prelude.{◌≡◌, true, ◌+◌, ◌-◌, ◌*◌, ◌≤◌, min, length, get_or, take};
ghost use Rattle.tables.specs.Tables.{SoundTable};
ghost use Rattle.halves.specs.Halves.{half_of};
ghost use Rattle.formulas.specs.Operators.{is_forward, is_modality};
ghost use Rattle.dividing.specs.Working.{Ready, Listed, text, texts, first_text};

use crate::disjuncts::list_disjuncts;
use crate::node::past_node;
use formulas::node::{is_forward, is_modality};
use labels::label::{Label, Labels};

// The nodes of the quotient of the first tree of f by the run in the first len bytes, or limit + 1 if they are more
// than the limit.
#[cycle(counting)]
pub(crate) fn count_tree(
    labels: Labels,
    table: &[u8],
    sizes: &[usize; 64],
    run: &mut [u8; 409],
    len: usize,
    f: &[u8],
    limit: usize,
) -> usize
    requires sound_table { SoundTable labels table.now }
    requires ready { Ready sizes.now run.old len 0 f.now }
    requires limit_bound { limit ≤ 4096 }
    ensures result_value { 2 * result ≡ min (length (text labels table.now f.now
        (half_of (take len run.old)))) (2 * limit + 2) }
    ensures run_unchanged { run.new ≡ run.old }
{
    let operator = f[0];
    if operator < 2 {
        return 1;
    }
    if limit == 0 {
        return 1;
    }
    if is_modality(operator) {
        return count_modal(labels, table, sizes, run, len, f, limit);
    }
    let n = count_tree(labels, table, sizes, run, len, &f[2..], limit - 1);
    if operator == 2 {
        return 1 + n;
    }
    if n == limit {
        return limit + 1;
    }
    // The second operand begins where the first one ends.
    let size = sizes[f.len() / 2 - 2];
    let second = &f[2 * size + 2..];
    let m = count_tree(labels, table, sizes, run, len, second, limit - 1 - n);
    1 + n + m
}

// The same for a modality.
#[cycle(counting)]
fn count_modal(
    labels: Labels,
    table: &[u8],
    sizes: &[usize; 64],
    run: &mut [u8; 409],
    len: usize,
    f: &[u8],
    limit: usize,
) -> usize
    requires sound_table { SoundTable labels table.now }
    requires ready { Ready sizes.now run.old len 0 f.now }
    requires le_limit { (1 ≤ limit) × (limit ≤ 4096) × (is_modality (get_or f.now 0 0) ≡ true) }
    ensures result_value { 2 * result ≡ min (length (text labels table.now f.now
        (half_of (take len run.old)))) (2 * limit + 2) }
    ensures run_unchanged { run.new ≡ run.old }
{
    let operator = f[0];
    if is_forward(operator) {
        return count_forward(labels, table, sizes, run, len, f, limit);
    }
    let bytes: &[u8] = run;
    match past_node(labels, operator, Label(f[1]), &bytes[..len]) {
        Some(_) => {
            let n = count_tree(labels, table, sizes, run, len - 2, &f[2..], limit - 1);
            1 + n
        }
        None => 1,
    }
}

// The same for a forward modality.
#[cycle(counting)]
fn count_forward(
    labels: Labels,
    table: &[u8],
    sizes: &[usize; 64],
    run: &mut [u8; 409],
    len: usize,
    f: &[u8],
    limit: usize,
) -> usize
    requires sound_table { SoundTable labels table.now }
    requires ready { Ready sizes.now run.old len 0 f.now }
    requires limit_bound { (limit ≤ 4096) × (is_forward (get_or f.now 0 0) ≡ true) }
    ensures result_value { 2 * result ≡ min (length (text labels table.now f.now
        (half_of (take len run.old)))) (2 * limit + 2) }
    ensures run_unchanged { run.new ≡ run.old }
{
    let mut disjuncts = [0u8; 68];
    let n = list_disjuncts(
        labels,
        table,
        f[0],
        Label(f[1]),
        run[len - 1],
        &mut disjuncts,
    );
    count_disjuncts(
        labels,
        table,
        sizes,
        run,
        len,
        &disjuncts[..n],
        &f[2..],
        limit,
    )
}

// The nodes of disjuncts joined by "or".
#[cycle(counting)]
fn count_disjuncts(
    labels: Labels,
    table: &[u8],
    sizes: &[usize; 64],
    run: &mut [u8; 409],
    len: usize,
    disjuncts: &[u8],
    f: &[u8],
    limit: usize,
) -> usize
    requires sound_table { SoundTable labels table.now }
    requires ready { Ready sizes.now run.old len 1 f.now }
    requires limit_bound { (limit ≤ 4096) × Listed (get_or run.old (len - 1) 0) disjuncts.now }
    ensures result_value { 2 * result ≡ min (length (texts labels table.now f.now
        (half_of (take len run.old)) disjuncts.now)) (2 * limit + 2) }
    ensures run_unchanged { run.new ≡ run.old }
{
    if disjuncts.len() < 8 {
        return count_disjunct(labels, table, sizes, run, len, disjuncts, f, limit);
    }
    if limit == 0 {
        return 1;
    }
    let n = count_disjunct(labels, table, sizes, run, len, disjuncts, f, limit - 1);
    if n == limit {
        return limit + 1;
    }
    let m = count_disjuncts(
        labels,
        table,
        sizes,
        run,
        len,
        &disjuncts[4..],
        f,
        limit - 1 - n,
    );
    1 + n + m
}

// The nodes of the first disjunct: its own, and those of the quotient by the run with one step more. The buffer is as
// before when this returns.
#[cycle(counting)]
fn count_disjunct(
    labels: Labels,
    table: &[u8],
    sizes: &[usize; 64],
    run: &mut [u8; 409],
    len: usize,
    disjuncts: &[u8],
    f: &[u8],
    limit: usize,
) -> usize
    requires sound_table { SoundTable labels table.now }
    requires ready { Ready sizes.now run.old len 1 f.now }
    requires limit_bound { (limit ≤ 4096) × Listed (get_or run.old (len - 1) 0) disjuncts.now }
    ensures result_value { 2 * result ≡ min (length (first_text labels table.now f.now
        (half_of (take len run.old)) disjuncts.now)) (2 * limit + 2) }
    ensures run_unchanged { run.new ≡ run.old }
{
    if limit == 0 {
        return 1;
    }
    let a = run[len];
    let b = run[len + 1];
    run[len] = disjuncts[2];
    run[len + 1] = disjuncts[3];
    let n = count_tree(labels, table, sizes, run, len + 2, f, limit - 1);
    run[len] = a;
    run[len + 1] = b;
    1 + n
}
