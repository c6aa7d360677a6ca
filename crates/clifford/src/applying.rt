// Tableaux applied to strings, letter by letter. Ports `apply` of clifford_rep.rs of PECOS, changed:
// Copyright 2024 The PECOS Developers, Apache License, Version 2.0.
ghost use Rattle.std.specs.Prelude.{◌≡◌, length};
ghost use Rattle.pauli_group.specs.Letter.{Y};
ghost use Rattle.pauli_group.specs.PauliString.{single};
ghost use Rattle.clifford_group.specs.Tableau.{image_of, row_image, apply};
ghost use Rattle.pauli.specs.Layout.{encode_string, letter_of};
ghost use Rattle.clifford.specs.Layout.{tableau_of, row_qubit, row_letter};
ghost use Rattle.clifford.specs.Inside.Rows.{WorkRow, WorkOnQubit, WorkPlace, AppliesString, AppliesLetter, ClearRow, cleared_row, row_times, letters_in, string_in};

use crate::clifford_rep::{X, Z};
use crate::layout::{RowPlace, multiply_by};
use crate::tableau::{Qubit, TableauRecord};
use pauli::algebra::multiply_paulis;
use pauli::rows::phase_times;

// The work row of this phase, with I on every qubit.
#[tactic(auto, using(crate::proofs::WorkRows::clearing))]
pub(crate) fn clear_row(work: &mut [u8], phase: u8)
    requires { ClearRow work.old phase }
    ensures { work.new ≡ cleared_row (length work.old) phase }
{
    work.fill(0);
    work[0] = phase;
}

// A work row multiplied by one letter, on qubit q. No struct holds a work row: each of its methods would promise that it still holds the
// same bytes, and would owe its invariant at every byte that it writes.
#[tactic(auto, using(crate::proofs::WorkRows::letter_products))]
pub(crate) fn multiply_letter(work: &mut [u8], q: usize, letter: u8)
    requires { WorkPlace work.old q }
    ensures { work.new ≡ row_times work.old (single (letter_of letter) q) }
{
    let p = multiply_paulis(work[q + 1], letter);
    let phase = phase_times(work[0], p.0);
    work[q + 1] = p.1;
    work[0] = phase;
}

// A work row multiplied by the X image and then the Z image of a qubit, times i: the image of Y.
fn multiply_both(work: &mut [u8], qubit: &Qubit)
    requires { WorkRow qubit.now.bytes.now work.old }
    ensures { work.new ≡ row_times work.old (row_image (tableau_of qubit.now.bytes.now) qubit.now.q Y) }
{
    work[0] = phase_times(work[0], 2);
    multiply_by(work, &qubit.row::<X>());
    multiply_by(work, &qubit.row::<Z>());
}

// A work row multiplied by the image, by rows, of a letter other than I on a qubit; a byte above 3 is read as 3.
#[tactic(auto, using(crate::proofs::WorkRows::images))]
fn multiply_own(work: &mut [u8], qubit: &Qubit, letter: u8)
    requires row { WorkRow qubit.now.bytes.now work.old }
    requires some { letter ≡ 0 → ⊥ }
    ensures { work.new ≡ row_times work.old (row_image (tableau_of qubit.now.bytes.now) qubit.now.q (letter_of letter)) }
{
    match letter {
        1 => multiply_by(work, &qubit.row::<X>()),
        2 => multiply_by(work, &qubit.row::<Z>()),
        _ => multiply_both(work, qubit),
    }
}

// A work row multiplied by the image of a letter on qubit q: by rows below the width; letters at the width or above pass through.
#[tactic(auto, using(crate::proofs::WorkRows::image_products))]
fn multiply_image(work: &mut [u8], t: &TableauRecord, q: usize, letter: u8)
    requires { WorkOnQubit t.now.bytes.now work.old q }
    ensures { work.new ≡ row_times work.old (image_of (tableau_of t.now.bytes.now) q (letter_of letter)) }
{
    if letter == 0 {
        return;
    }
    if q < t.width() {
        multiply_own(work, &t.qubit(q), letter);
    } else {
        multiply_letter(work, q, letter);
    }
}

// The apply routine: the image of the string s, as a work row. Starts with its phase and identity letters, and goes by rising
// qubit.
#[tactic(auto, using(crate::proofs::Apply::applied_strings))]
pub(crate) fn apply_string(t: &TableauRecord, s: &[u8], work: &mut [u8])
    requires { AppliesString t.now.bytes.now s.now work.old }
    ensures { work.new ≡ encode_string (letters_in work.old) (apply (tableau_of t.now.bytes.now) (string_in s.now)) }
{
    clear_row(work, s[0]);
    for (q, letter) in s[1..].iter().enumerate() {
        // I is sent to I: of most strings most letters are.
        if *letter == 0 {
            continue;
        }
        multiply_image(work, t, q, *letter);
    }
}

// The image of the row's letter on its qubit, as a work row; the row may be one of a wider record.
pub(crate) fn apply_letter(t: &TableauRecord, row: RowPlace, work: &mut [u8])
    requires { AppliesLetter t.now.bytes.now row.width work.old }
    ensures { work.new ≡ encode_string row.width (image_of (tableau_of t.now.bytes.now) (row_qubit row.width row.r) (row_letter row.width row.r)) }
{
    clear_row(work, 0);
    multiply_image(work, t, row.qubit(), row.letter());
}
