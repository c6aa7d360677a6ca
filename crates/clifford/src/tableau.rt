// A record that has passed the questions, its qubits and its rows, so that what reads them asks nothing more.
ghost use Rattle.std.specs.Prelude.{◌≡◌, ◌+◌, ◌<◌, ◌≤◌};
ghost use Rattle.pauli_group.specs.PauliString.{commute};
ghost use Rattle.clifford_group.specs.Conjugation.{row};
ghost use Rattle.pauli.specs.Layout.{phase_byte};
ghost use Rattle.clifford.specs.Layout.{FormedTableau, generator_row, row_of, tableau_of, width_of};
ghost use Rattle.clifford.specs.Inside.Rows.{OwnQubit, OwnRow, letter_bytes};

use crate::clifford_rep::{Generator, image_row};
use crate::layout;
use pauli::rows::count_anticommuting;

#[derive(Clone, Copy)]
pub(crate) struct TableauRecord<'a> {
    pub(crate) bytes: &'a [u8],
    ghost formed: { FormedTableau bytes.now },
}

impl<'a> TableauRecord<'a> {
    pub(crate) fn width(&self) -> usize
        ensures is { result ≡ width_of self.now.bytes.now }
        ensures narrow { result ≤ 128 }
    {
        layout::width(self.bytes)
    }

    #[tactic(auto, using(crate::proofs::RowAccess::qubit_rows))]
    pub(crate) fn qubit(&self, q: usize) -> Qubit<'a>
        requires { q < width_of self.now.bytes.now }
        ensures bytes { result.bytes.now ≡ self.now.bytes.now }
        ensures place { result.q ≡ q }
    {
        Qubit {
            bytes: self.bytes,
            q,
        }
    }
}

// Qubit q of such a record.
#[derive(Drop)]
pub(crate) struct Qubit<'a> {
    pub(crate) bytes: &'a [u8],
    pub(crate) q: usize,
    ghost own: { OwnQubit bytes.now q },
}

impl<'a> Qubit<'a> {
    // The row of the image of X or Z.
    #[tactic(auto, using(crate::proofs::RowAccess::qubit_rows))]
    pub(crate) fn row<G: Generator>(&self) -> Row<'a>
        ensures bytes { result.bytes.now ≡ self.now.bytes.now }
        ensures place { result.r ≡ generator_row G.letter (width_of self.now.bytes.now) self.now.q }
        ensures image { row_of (tableau_of result.bytes.now) result.r ≡ row (tableau_of self.now.bytes.now) G.letter self.now.q }
    {
        Row {
            bytes: self.bytes,
            r: image_row::<G>(layout::width(self.bytes), self.q),
        }
    }
}

// Row r of such a record.
#[derive(Drop)]
pub(crate) struct Row<'a> {
    pub(crate) bytes: &'a [u8],
    pub(crate) r: usize,
    ghost own: { OwnRow bytes.now r },
}

impl<'a> Row<'a> {
    #[tactic(auto, using(crate::proofs::RowAccess::formed_rows))]
    pub(crate) fn phase(&self) -> u8
        ensures { result ≡ phase_byte (row_of (tableau_of self.now.bytes.now) self.now.r).phase }
    {
        layout::phase_at(self.bytes, self.r)
    }

    #[tactic(auto, using(crate::proofs::RowAccess::formed_rows))]
    pub(crate) fn letters(&self) -> &'a [u8]
        ensures { result.now ≡ letter_bytes (tableau_of self.now.bytes.now) self.now.r }
    {
        layout::row_letters(self)
    }

    // Whether two rows commute: the places at which they anticommute, at most 128, are even in number.
    #[tactic(auto, using(crate::proofs::IsValid::row_commutation))]
    pub(crate) fn commutes_with(&self, other: &Row) -> bool
        ensures { result ≡ commute (row_of (tableau_of self.now.bytes.now) self.now.r) (row_of (tableau_of other.now.bytes.now) other.now.r) }
    {
        let places = count_anticommuting(self.letters(), other.letters());
        places % 2 == 0
    }
}
