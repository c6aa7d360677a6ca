// Validity. Ports `is_valid` of clifford_rep.rs of PECOS, changed:
// Copyright 2024 The PECOS Developers, Apache License, Version 2.0.
ghost use Rattle.std.specs.Prelude.{◌≡◌, ◌&&◌, ◌<◌};
ghost use Rattle.clifford_group.specs.Tableau.{all_to, valid_qubit, valid_pair, is_valid};
ghost use Rattle.clifford.specs.Layout.{tableau_of};

use crate::clifford_rep::{X, Z};
use crate::tableau::{Qubit, TableauRecord};

impl Qubit<'_> {
    // Whether its own rows are valid.
    fn has_valid_rows(&self) -> bool
        ensures { result ≡ valid_qubit (tableau_of self.now.bytes.now) self.now.q }
    {
        let x = self.row::<X>();
        let z = self.row::<Z>();
        x.phase() < 2 && z.phase() < 2 && !x.commutes_with(&z)
    }

    // Whether its rows commute with those of a qubit before it.
    #[tactic(auto, using(crate::proofs::RowAccess::qubit_rows, pauli::proofs::Asking::by_questions), unfolding(clifford_group::specs::Tableau::valid_pair))]
    fn commutes_with(&self, r: usize) -> bool
        requires { r < self.now.q }
        ensures { result ≡ valid_pair (tableau_of self.now.bytes.now) self.now.q r }
    {
        let other = Qubit {
            bytes: self.bytes,
            q: r,
        };
        let x = self.row::<X>();
        let z = self.row::<Z>();
        let other_x = other.row::<X>();
        let other_z = other.row::<Z>();
        x.commutes_with(&other_x)
            && x.commutes_with(&other_z)
            && z.commutes_with(&other_x)
            && z.commutes_with(&other_z)
    }

    // Whether its rows are valid, among themselves and with those of the qubits before it.
    fn is_valid(&self) -> bool
        ensures { result ≡ (valid_qubit (tableau_of self.now.bytes.now) self.now.q && all_to self.now.q (valid_pair (tableau_of self.now.bytes.now) self.now.q)) }
    {
        self.has_valid_rows() && (0..self.q).all(|r| self.commutes_with(r))
    }
}

impl TableauRecord<'_> {
    // Whether the tableau is valid, by its own rows.
    pub(crate) fn is_valid(&self) -> bool
        ensures { result ≡ is_valid (tableau_of self.now.bytes.now) }
    {
        (0..self.width()).all(|q| self.qubit(q).is_valid())
    }
}
