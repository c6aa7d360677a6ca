// Images set in place. Ports `set_x_image` and `set_z_image` of clifford_rep.rs of PECOS, changed:
// Copyright 2024 The PECOS Developers, Apache License, Version 2.0.
ghost use Rattle.std.specs.Prelude.{◌≡◌};
ghost use Rattle.pauli.specs.Layout.{string_of};
ghost use Rattle.clifford.specs.Layout.{tableau_of, tableau_record};
ghost use Rattle.clifford.specs.Questions.{inside_question};
ghost use Rattle.clifford.specs.Inside.Rows.{Beside, with_row};
ghost use Rattle.clifford.specs.Inside.Writing.{SetsRow};

use crate::layout::{row_offset, width, write_row};
use pauli::QUBITS;
use pauli::refusal::Refusal;

// Question 14: the lowest qubit at the width or above that has a letter.
pub(crate) fn check_inside(s: &[u8], width: usize) -> Result<(), Refusal>
    requires { Beside s.now width }
    ensures { result ≡ inside_question width (string_of s.now) }
{
    match (width..QUBITS).find(|qubit| s[*qubit + 1] != 0) {
        Some(qubit) => Err(Refusal::ImageWidth { qubit, width }),
        None => Ok(()),
    }
}

// Row r replaced by the string s. A record that is written is no TableauRecord, which lends its bytes to be read.
#[tactic(auto, using(crate::proofs::SetImage::row_setting))]
pub(crate) fn set_row(t: &mut [u8], r: usize, s: &[u8])
    requires { SetsRow t.old r s.now }
    ensures { t.new ≡ tableau_record (with_row (tableau_of t.old) r (string_of s.now)) }
{
    let n = width(t);
    let at = row_offset(n, r);
    write_row(&s[0..n + 1], &mut t[at..]);
}
