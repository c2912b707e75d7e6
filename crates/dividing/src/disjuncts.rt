// The disjuncts of a forward modality's quotient, listed in order, four bytes each: the operator and label of the
// disjunct's node, then the label and target of the step by which the known half goes on there.
ghost use Rattle.std.specs.Prelude.{◌≡◌, [], ◌∷◌, ◌≤◌, length};
ghost use Rattle.labels.specs.Refusals.{in_front};
ghost use Rattle.tables.specs.Tables.{SoundTable};
ghost use Rattle.tables.specs.Working.{moves_in};
ghost use Rattle.labels.specs.Labels.{pairing};
ghost use Rattle.dividing.specs.Working.{disjuncts_of, alone_in, shaken_in};

use labels::label::{Label, Labels};
use tables::leaving::rows_leaving;

// Lists the disjuncts of forward by a label (operator 5) or by idle (7), where the known half ends in this state: an
// idle of the known half first, then its moves alone, then its parts in handshakes. Gives how many bytes they are.
pub(crate) fn list_disjuncts(
    labels: Labels,
    table: &[u8],
    operator: u8,
    label: Label,
    state: u8,
    out: &mut [u8],
) -> usize
    requires sound_table { SoundTable labels table.now }
    requires in_bounds { 68 ≤ length out.old }
    ensures value { result ≡ length (disjuncts_of labels table.now operator label.0 state) }
    ensures out_after { out.new
        ≡ in_front (disjuncts_of labels table.now operator label.0 state) out.old }
{
    if operator == 7 {
        put_disjunct(out, 7, Label::SILENT, Label::IDLE, state);
        return 4;
    }
    put_disjunct(out, 5, label, Label::IDLE, state);
    let rows = rows_leaving(table, state);
    let n = list_alone(rows, label, &mut out[4..]);
    let at = 4 + n;
    if !label.is_silent() {
        return at;
    }
    let m = list_shaken(labels, rows, &mut out[at..]);
    at + m
}

// Lists a disjunct for each row of this label: the known half moves alone, the other idles.
fn list_alone(rows: &[u8], label: Label, out: &mut [u8]) -> usize
    requires { length (alone_in label.0 (moves_in rows.now)) ≤ length out.old }
    ensures value { result ≡ length (alone_in label.0 (moves_in rows.now)) }
    ensures out_after { out.new ≡ in_front (alone_in label.0 (moves_in rows.now)) out.old }
{
    let mut n = 0;
    for row in rows.chunks_exact(3) {
        let moved = Label(row[1]);
        if moved == label {
            put_disjunct(&mut out[n..], 7, Label::SILENT, moved, row[2]);
            n += 4;
        }
    }
    n
}

// Lists a disjunct for each row whose label has a partner: the known half takes its part in a handshake, the other
// moves by the partner.
fn list_shaken(labels: Labels, rows: &[u8], out: &mut [u8]) -> usize
    requires { length (shaken_in (pairing labels) (moves_in rows.now)) ≤ length out.old }
    ensures value { result ≡ length (shaken_in (pairing labels) (moves_in rows.now)) }
    ensures out_after { out.new
        ≡ in_front (shaken_in (pairing labels) (moves_in rows.now)) out.old }
{
    let mut n = 0;
    for row in rows.chunks_exact(3) {
        let moved = Label(row[1]);
        if let Some(partner) = labels.partner(moved) {
            put_disjunct(&mut out[n..], 5, partner, moved, row[2]);
            n += 4;
        }
    }
    n
}

// Writes one disjunct.
#[tactic(auto, using(labels::proofs::Outputs::put_four))]
fn put_disjunct(out: &mut [u8], operator: u8, label: Label, step: Label, target: u8)
    requires { 4 ≤ length out.old }
    ensures { out.new ≡ in_front (operator ∷ label.0 ∷ step.0 ∷ target ∷ []) out.old }
{
    out[0] = operator;
    out[1] = label.0;
    out[2] = step.0;
    out[3] = target;
}
