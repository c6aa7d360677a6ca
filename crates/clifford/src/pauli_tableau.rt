// The tableau of a Pauli string. Ports `From<PauliString>` of clifford_rep.rs of PECOS, changed:
// Copyright 2024 The PECOS Developers, Apache License, Version 2.0.
ghost use Rattle.std.specs.Prelude.{◌≡◌, ◌+◌, length};
ghost use Rattle.pauli_group.specs.PauliString.{single};
ghost use Rattle.pauli.specs.Layout.{letter_byte, encode_string, string_of, WellFormed};
ghost use Rattle.clifford.specs.Layout.{row_qubit, row_letter};
ghost use Rattle.clifford.specs.Inside.Rows.{sign_byte};
ghost use Rattle.clifford.specs.Inside.Writing.{Span, conjugated};

use crate::applying::{clear_row, multiply_letter};
use crate::layout::RowPlace;
use pauli::QUBITS;

// The width: 1 + the highest qubit that has a letter, and 1 where none has.
pub(crate) fn span(s: &[u8]) -> usize
    requires { WellFormed 128 s.now }
    ensures { Span s.now result }
{
    match s[1..].iter().rev().position(|letter| *letter != 0) {
        Some(after) => QUBITS - after,
        None => 1,
    }
}

// The sign of the row's letter next to the letter a: -1 where the two anticommute.
#[tactic(auto, using(crate::proofs::PauliTableau::sign_bytes))]
fn sign_byte(a: u8, row: RowPlace) -> u8
    ensures { result ≡ sign_byte a (letter_byte (row_letter row.width row.r)) }
{
    u8::from(a != 0 && a != row.letter())
}

// The row's letter on its qubit, conjugated by the string s, as a work row.
pub(crate) fn pauli_row(s: &[u8], row: RowPlace, work: &mut [u8])
    requires string { WellFormed 128 s.now }
    requires work { length work.old ≡ row.width + 1 }
    ensures { work.new ≡ encode_string row.width (conjugated (string_of s.now) (single (row_letter row.width row.r) (row_qubit row.width row.r))) }
{
    let q = row.qubit();
    let sign = sign_byte(s[q + 1], row);
    clear_row(work, sign);
    multiply_letter(work, q, row.letter());
}
