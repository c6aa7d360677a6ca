// The support of a tableau. Ports `support_qubits` of clifford_rep.rs of PECOS, changed:
// Copyright 2024 The PECOS Developers, Apache License, Version 2.0.
ghost use Rattle.std.specs.Prelude.{◌≡◌, ◌≤◌, length};
ghost use Rattle.pauli_group.specs.PauliString.{has_letter, single};
ghost use Rattle.clifford_group.specs.Conjugation.{generator};
ghost use Rattle.pauli.specs.Answers.{written};
ghost use Rattle.pauli.specs.Layout.{letter_byte};
ghost use Rattle.clifford.specs.Layout.{row_of, tableau_of, width_of};
ghost use Rattle.clifford.specs.Support.{is_single, changed_qubit, touches_qubit, supports_qubit, in_support, support_qubits};

use crate::clifford_rep::{Generator, X, Z};
use crate::tableau::{Qubit, Row, TableauRecord};

// The byte of X or Z on qubit q, at qubit c.
#[tactic(auto, using(pauli::proofs::Asking::by_tests, pauli::proofs::Asking::by_questions), unfolding(pauli_group::specs::PauliString::single, pauli::specs::Layout::letter_byte))]
fn single_byte<G: Generator>(q: usize, c: usize) -> u8
    ensures { result ≡ letter_byte ((single (generator G.letter) q).letters c) }
{
    if c == q { G::byte() } else { 0 }
}

impl Row<'_> {
    // Whether it is plus X or Z on qubit q.
    fn is_single<G: Generator>(&self, q: usize) -> bool
        ensures { result ≡ is_single (width_of self.now.bytes.now) (generator G.letter) q (row_of (tableau_of self.now.bytes.now) self.now.r) }
    {
        let letters = self.letters();
        self.phase() == 0
            && letters
                .iter()
                .enumerate()
                .all(|(c, letter)| *letter == single_byte::<G>(q, c))
    }

    // Whether it has a letter on qubit k.
    #[tactic(auto, using(crate::proofs::SupportQubits::letters_seen))]
    fn has_letter(&self, k: usize) -> bool
        ensures { result ≡ has_letter (row_of (tableau_of self.now.bytes.now) self.now.r) k }
    {
        self.letters().get(k).copied().unwrap_or(0) != 0
    }
}

impl Qubit<'_> {
    fn is_changed(&self) -> bool
        ensures { result ≡ changed_qubit (tableau_of self.now.bytes.now) self.now.q }
    {
        let x = self.row::<X>();
        let z = self.row::<Z>();
        !(x.is_single::<X>(self.q) && z.is_single::<Z>(self.q))
    }

    // Whether k is this qubit or has a letter in one of its rows.
    #[tactic(auto, unfolding(crate::specs::Support::touches_qubit))]
    fn touches(&self, k: usize) -> bool
        ensures { result ≡ touches_qubit (tableau_of self.now.bytes.now) k self.now.q }
    {
        let x = self.row::<X>();
        let z = self.row::<Z>();
        self.q == k || x.has_letter(k) || z.has_letter(k)
    }

    #[tactic(auto, unfolding(crate::specs::Support::supports_qubit))]
    fn supports(&self, k: usize) -> bool
        ensures { result ≡ supports_qubit (tableau_of self.now.bytes.now) k self.now.q }
    {
        self.touches(k) && self.is_changed()
    }
}

impl TableauRecord<'_> {
    // Whether k is in the support.
    fn in_support(&self, k: usize) -> bool
        ensures { result ≡ in_support (tableau_of self.now.bytes.now) k }
    {
        (0..self.width()).any(|q| self.qubit(q).supports(k))
    }

    // The number of qubits of the support.
    pub(crate) fn support_count(&self) -> usize
        ensures { result ≡ length (support_qubits (tableau_of self.now.bytes.now)) }
    {
        (0..self.width()).filter(|k| self.in_support(*k)).count()
    }

    // The qubits of the support, rising.
    pub(crate) fn write_support(&self, dst: &mut [u8])
        requires { length (support_qubits (tableau_of self.now.bytes.now)) ≤ length dst.old }
        ensures { dst.new ≡ written (Ok tt) (support_qubits (tableau_of self.now.bytes.now)) dst.old }
    {
        let qubits = (0..self.width()).filter(|k| self.in_support(*k));
        'writing: for (place, k) in qubits.enumerate() {
            // By place: of what is written through a zip of `iter_mut` a proof knows the length alone. A qubit is below 128: by TryFrom
            // there would be a failure to answer, which never comes.
            dst[place] = k as u8;
        }
    }
}
