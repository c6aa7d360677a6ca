// Inverses made row by row. Ports `inverse` of clifford_rep.rs of PECOS, changed:
// Copyright 2024 The PECOS Developers, Apache License, Version 2.0.
ghost use Rattle.std.specs.Prelude.{◌≡◌, ◌+◌, ◌*◌, ◌<◌, length};
ghost use Rattle.clifford_group.specs.Tableau.{inverse};
ghost use Rattle.pauli.specs.Layout.{letter_byte, encode_string};
ghost use Rattle.clifford.specs.Layout.{row_of, tableau_of};
ghost use Rattle.clifford.specs.Inside.InverseRows.{bit_read, bit_byte, body_of, body_bytes, RowBack};

use crate::applying::apply_string;
use crate::layout::{RowPlace, letter_in_row};
use crate::tableau::TableauRecord;
use pauli::quarter_phase::phase_conjugate;

// A row of the inverse of t.
#[derive(Drop)]
pub(crate) struct InverseRow<'a> {
    pub(crate) t: TableauRecord<'a>,
    pub(crate) row: RowPlace,
    ghost back: { RowBack t.bytes.now row.width row.r },
}

impl InverseRow<'_> {
    // The bit that it reads in row s of t, in the column of its qubit: the z bit for an X row, the x bit for a Z row.
    #[tactic(auto, using(crate::proofs::Inverse::bit_reads))]
    fn bit(&self, s: usize) -> u8
        requires { s < 2 * self.now.row.width }
        ensures { result ≡ bit_byte (bit_read (tableau_of self.now.t.bytes.now) self.now.row.r s) }
    {
        let letter = letter_in_row(&self.t, s, self.row.qubit());
        if self.row.is_x() {
            letter / 2
        } else {
            letter % 2
        }
    }

    // The letter at qubit c of its body: its x bit is read in Z row c, its z bit in X row c.
    #[tactic(auto, using(crate::proofs::Inverse::body_letters))]
    fn body_letter(&self, c: usize) -> u8
        requires { c < self.now.row.width }
        ensures { result ≡ letter_byte ((body_of (tableau_of self.now.t.bytes.now) self.now.row.r).letters c) }
    {
        let x = self.bit(self.row.width + c);
        let z = self.bit(c);
        x + 2 * z
    }

    // The letters of its body.
    #[tactic(auto, using(crate::proofs::Inverse::body_fills))]
    fn write_letters(&self, letters: &mut [u8])
        requires { length letters.old ≡ self.now.row.width }
        ensures { letters.new ≡ body_bytes (tableau_of self.now.t.bytes.now) self.now.row.width self.now.row.r }
    {
        for (c, letter) in letters.iter_mut().enumerate() {
            *letter = self.body_letter(c);
        }
    }

    // Its body, as a work row.
    #[tactic(auto, using(crate::proofs::Inverse::bodies))]
    fn write_body(&self, body: &mut [u8])
        requires { length body.old ≡ self.now.row.width + 1 }
        ensures { body.new ≡ encode_string self.now.row.width (body_of (tableau_of self.now.t.bytes.now) self.now.row.r) }
    {
        body[0] = 0;
        self.write_letters(&mut body[1..]);
    }

    // The row, as a work row: its body, with the conjugate of the phase met when the body is sent forward.
    #[tactic(auto, using(crate::proofs::Inverse::inverting))]
    pub(crate) fn write(&self, source: &mut [u8], work: &mut [u8])
        requires source { length source.old ≡ self.now.row.width + 1 }
        requires work { length work.old ≡ self.now.row.width + 1 }
        ensures { work.new ≡ encode_string self.now.row.width (row_of (inverse (tableau_of self.now.t.bytes.now)) self.now.row.r) }
    {
        self.write_body(work);
        apply_string(&self.t, work, source);
        work[0] = phase_conjugate(source[0]);
    }
}
