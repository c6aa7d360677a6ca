// A gate composed on the left of a tableau record, in place and in time linear in the width.
ghost use Rattle.std.specs.Prelude.{◌≡◌, ◌-◌, [], slice_index_or};
ghost use Rattle.clifford.specs.Layout.{each_row};
ghost use Rattle.clifford.specs.Playing.{second_fits, playable, GatePlayed, PlayedBy, letter_table_on_row, pair_table_on_row};
ghost use Rattle.clifford.specs.Inside.Playing.{PlaysLetters, PlaysPairs};

use crate::layout::{change_letter, change_pair, record_length, row_offset, width};
use crate::numbering::{Gate, OneQubitGate, TwoQubitGate};
use crate::tables::{letter_tables, pair_tables};
use pauli::QUBITS;

// Whether the second qubit of a two-qubit gate is below the width and another than the first. The gate may be any number.
#[tactic(auto, unfolding(crate::specs::Playing::second_fits))]
fn second_fits(gate: usize, q: usize, r: usize, width: usize) -> bool
    ensures { result ≡ second_fits gate q r width }
{
    gate < 24 || (r < width && q != r)
}

// Whether the gate has a place in the record. The rows are not looked at. No `PlacedGate`: the numbers are any before this is asked.
#[tactic(auto, using(crate::proofs::Play::playables))]
fn is_playable(gate: usize, q: usize, r: usize, t: &[u8]) -> bool
    ensures { result ≡ playable gate q r t.now }
{
    let n = width(t);
    gate < 38 && q < n && second_fits(gate, q, r, n) && n <= QUBITS && t.len() == record_length(n)
}

// A one-qubit gate on each row, by its table. By the row's offset: how rows lie in a record stands in `layout` alone, and of what is
// written through `chunks_exact_mut` a proof knows the length alone. This loop and the next stay two: one loop over a trait of row changes
// would need the trait with its contract, two types and two implementations.
#[tactic(auto, using(crate::proofs::Play::plays))]
fn play_letters(tables: &[[[u8; 4]; 2]; 24], gate: OneQubitGate, q: usize, t: &mut [u8])
    requires { PlaysLetters q t.old }
    ensures { t.new ≡ each_row (letter_table_on_row (slice_index_or tables.now gate.number []) q) t.old }
{
    let table = tables[gate.number];
    let n = width(t);
    for i in 0..2 * n {
        let at = row_offset(n, i);
        change_letter(&mut t[at..], q, &table);
    }
}

// A two-qubit gate on each row, by its table. No `PlacedGate`: of one it would have to be asked again whether its gate has two qubits.
#[tactic(auto, using(crate::proofs::Play::plays))]
fn play_pairs(tables: &[[[u8; 16]; 4]; 14], gate: TwoQubitGate, q: usize, r: usize, t: &mut [u8])
    requires { PlaysPairs q r t.old }
    ensures { t.new ≡ each_row (pair_table_on_row (slice_index_or tables.now (gate.number - 24) []) q r) t.old }
{
    let table = tables[gate.number - 24];
    let n = width(t);
    for i in 0..2 * n {
        let at = row_offset(n, i);
        change_pair(&mut t[at..], q, r, &table);
    }
}

// `play_gate` by tables that are lent. No struct of the two: gate_list's own holds that they are the gates', and this promises for any.
#[tactic(auto, using(crate::proofs::Play::playing))]
pub fn play_with(
    ones: &[[[u8; 4]; 2]; 24],
    twos: &[[[u8; 16]; 4]; 14],
    gate: u8,
    q: usize,
    r: usize,
    t: &mut [u8],
) -> bool
    ensures { PlayedBy ones.now twos.now gate q r t.old t.new result }
{
    let g = usize::from(gate);
    if !is_playable(g, q, r, t) {
        return false;
    }
    match Gate::numbered(g) {
        Gate::One(gate) => play_letters(ones, gate, q, t),
        Gate::Two(gate) => play_pairs(twos, gate, q, r, t),
    }
    true
}

// The gate's tableau composed on the left of the record t; the answer is whether it was. Where the gate, its qubits or the length
// don't fit, t stays. The rows are not looked at before: a byte above 3 is read as 3. Not by `play_with`: at width 1 a one-qubit gate by
// `play` takes 322 instructions where its own tables alone are laid out, and 550 where both kinds are.
#[tactic(auto, using(crate::proofs::Play::own_playing))]
pub fn play_gate(gate: u8, q: usize, r: usize, t: &mut [u8]) -> bool
    ensures { GatePlayed gate q r t.old t.new result }
{
    let g = usize::from(gate);
    if !is_playable(g, q, r, t) {
        return false;
    }
    match Gate::numbered(g) {
        Gate::One(gate) => play_letters(&letter_tables(), gate, q, t),
        Gate::Two(gate) => play_pairs(&pair_tables(), gate, q, r, t),
    }
    true
}
