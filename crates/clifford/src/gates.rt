// The images of the gates, and the rows of their tableaux. Ports clifford.rs and the constructors of clifford_rep.rs of PECOS,
// changed: Copyright 2026 and 2024 The PECOS Developers, Apache License, Version 2.0.
ghost use Rattle.std.specs.Prelude.{◌≡◌, suc, ◌<◌, ◌≤◌, max, slice_index};
ghost use Rattle.clifford_group.specs.Tableau.{image_of};
ghost use Rattle.clifford_gates.specs.GateTableaux.{image_string};
ghost use Rattle.clifford_gates.specs.GateNumbers.{one_qubit_gate, two_qubit_gate, gate_tableau, product_gates, inverse_numbers};
ghost use Rattle.clifford_gates.specs.Updates.{letter_image, sent_image};
ghost use Rattle.pauli.specs.Layout.{letter_of, encode_string};
ghost use Rattle.clifford.specs.Layout.{row_qubit, row_letter};
ghost use Rattle.clifford.specs.Inside.Rows.{letters_in};
ghost use Rattle.clifford.specs.GateQuestions.{gate_width};
ghost use Rattle.clifford.specs.GateAnswers.{named};
ghost use Rattle.clifford.specs.GateRows.{image_bytes, y_bytes, ImageOf};
ghost use Rattle.clifford.specs.Inside.GateRows.{pair_bytes, image_held, first_entry, entry_pair, OneRow, RowImageOf, row_image_string, GateSpan, PutsImage};

use crate::applying::{clear_row, multiply_letter};
use crate::layout::RowPlace;
use crate::numbering::{Gate, OneQubitGate, PlacedGate, TwoQubitGate};
use pauli::algebra::{PhasedLetter, multiply_paulis};
use pauli::rows::phase_times;

// Gates 0 to 23: the sign and the letter of the image of X, and of Z.
const IMAGES_1Q: [[u8; 4]; 24] = [
    [0, 1, 0, 2], // 0: I
    [0, 1, 1, 2], // 1: X
    [1, 1, 1, 2], // 2: Y
    [1, 1, 0, 2], // 3: Z
    [0, 2, 0, 1], // 4: H
    [1, 2, 1, 1], // 5: H2
    [0, 3, 1, 2], // 6: H3
    [1, 3, 1, 2], // 7: H4
    [1, 1, 0, 3], // 8: H5
    [1, 1, 1, 3], // 9: H6
    [0, 1, 1, 3], // 10: SX
    [0, 1, 0, 3], // 11: SXdg
    [1, 2, 0, 1], // 12: SY
    [0, 2, 1, 1], // 13: SYdg
    [0, 3, 0, 2], // 14: SZ
    [1, 3, 0, 2], // 15: SZdg
    [0, 3, 0, 1], // 16: F
    [0, 2, 0, 3], // 17: Fdg
    [1, 2, 0, 3], // 18: F2
    [1, 3, 1, 1], // 19: F2dg
    [0, 3, 1, 1], // 20: F3
    [1, 2, 1, 3], // 21: F3dg
    [0, 2, 1, 3], // 22: F4
    [1, 3, 0, 1], // 23: F4dg
];

// Gates 24 to 37: the sign and the two letters of the images of X on the first and on the second qubit, then of Z, in one entry, as in
// the table before, whose form the scope document fixes.
const IMAGES_2Q: [[u8; 12]; 14] = [
    [0, 1, 1, 0, 0, 1, 0, 2, 0, 0, 2, 2], // 24: CX
    [0, 1, 3, 0, 2, 1, 0, 2, 0, 0, 2, 2], // 25: CY
    [0, 1, 2, 0, 2, 1, 0, 2, 0, 0, 0, 2], // 26: CZ
    [0, 0, 1, 0, 1, 0, 0, 0, 2, 0, 2, 0], // 27: SWAP
    [0, 1, 0, 0, 0, 1, 1, 3, 1, 1, 1, 3], // 28: SXX
    [0, 1, 0, 0, 0, 1, 0, 3, 1, 0, 1, 3], // 29: SXXdg
    [1, 2, 3, 1, 3, 2, 0, 1, 3, 0, 3, 1], // 30: SYY
    [0, 2, 3, 0, 3, 2, 1, 1, 3, 1, 3, 1], // 31: SYYdg
    [0, 3, 2, 0, 2, 3, 0, 2, 0, 0, 0, 2], // 32: SZZ
    [1, 3, 2, 1, 2, 3, 0, 2, 0, 0, 0, 2], // 33: SZZdg
    [0, 2, 3, 0, 3, 2, 0, 0, 2, 0, 2, 0], // 34: ISWAP
    [1, 2, 3, 1, 3, 2, 0, 0, 2, 0, 2, 0], // 35: ISWAPdg
    [0, 0, 1, 0, 1, 0, 0, 1, 2, 0, 2, 1], // 36: G
    [0, 0, 1, 0, 1, 0, 0, 1, 2, 0, 2, 1], // 37: Gdg
];

// The gates that the 24 products of H and SZ are, by index.
const PRODUCTS: [u8; 24] = [
    0, 1, 2, 3, 14, 15, 4, 17, 23, 13, 12, 22, 11, 10, 16, 20, 18, 9, 5, 8, 7, 21, 19, 6,
];

// The inverse of each gate.
const INVERSES: [u8; 38] = [
    0, 1, 2, 3, 4, 5, 6, 7, 8, 9, 11, 10, 13, 12, 15, 14, 17, 16, 19, 18, 21, 20, 23, 22, 24, 25,
    26, 27, 29, 28, 31, 30, 33, 32, 35, 34, 37, 36,
];

const IDENTITY: OneQubitGate = OneQubitGate { number: 0 };

// A sign, a letter on a qubit, and one more letter on a qubit.
#[derive(Clone, Copy)]
pub(crate) struct RowImage {
    sign: u8,
    first_letter: u8,
    first_qubit: usize,
    second_letter: u8,
    second_qubit: usize,
}

// ---- images

// The image of Y = iXZ.
#[tactic(auto, using(crate::proofs::GateImages::y_made))]
fn y_image(images: [u8; 4]) -> PhasedLetter
    ensures { result ≡ y_bytes images }
{
    let p = multiply_paulis(images[1], images[3]);
    let signs = phase_times(images[0], images[2]);
    PhasedLetter(phase_times(2, phase_times(signs, p.0)), p.1)
}

impl OneQubitGate {
    fn images(self) -> [u8; 4]
        ensures { result ≡ image_bytes (one_qubit_gate self.number) }
    {
        IMAGES_1Q[self.number]
    }

    // What it makes of a letter, which is a byte as records hold it.
    pub(crate) fn letter_image(self, letter: u8) -> PhasedLetter
        ensures { ImageOf (letter_image (one_qubit_gate self.number) (letter_of letter)) result }
    {
        let images = self.images();
        match letter {
            0 => PhasedLetter(0, 0),
            1 => PhasedLetter(images[0], images[1]),
            2 => PhasedLetter(images[2], images[3]),
            _ => y_image(images),
        }
    }

    // What it makes of an image.
    pub(crate) fn sent_image(self, image: PhasedLetter) -> PhasedLetter
        ensures { ImageOf (sent_image (one_qubit_gate self.number) (image_held image)) result }
    {
        let sent = self.letter_image(image.1);
        PhasedLetter(phase_times(image.0, sent.0), sent.1)
    }

    // Its image of X or of Z on qubit k.
    fn row_image(self, k: usize, letter: u8) -> RowImage
        ensures { OneRow (image_string (letter_image (one_qubit_gate self.number) (letter_of letter)) k) k result }
    {
        let image = self.letter_image(letter);
        RowImage {
            sign: image.0,
            first_letter: image.1,
            first_qubit: k,
            second_letter: 0,
            second_qubit: k,
        }
    }
}

// Beside the functions of one-qubit gates, not one for both: an image has two letters here, and one there.
impl TwoQubitGate {
    fn images(self) -> [u8; 12]
        ensures { result ≡ pair_bytes (two_qubit_gate self.number) }
    {
        IMAGES_2Q[self.number - 24]
    }

    // The image that starts at this place of its entry, on its qubits.
    #[tactic(auto, using(crate::proofs::GateImages::pair_reads))]
    fn row_image(self, at: usize, q: usize, r: usize) -> RowImage
        requires { at ≤ 9 }
        ensures { result ≡ entry_pair (pair_bytes (two_qubit_gate self.number)) at q r }
    {
        let images = self.images();
        RowImage {
            sign: images[at],
            first_letter: images[at + 1],
            first_qubit: q,
            second_letter: images[at + 2],
            second_qubit: r,
        }
    }
}

// ---- gates found by their images or by number

// The first gate, by number, whose images of X and of Z, phase and letter, are these. The scope document fixes its form: a loop left
// with the number by break.
#[tactic(auto, using(crate::proofs::GateNaming::gate_searches))]
pub(crate) fn first_gate(images: [u8; 4]) -> Option<u8>
    ensures { result ≡ named (first_entry images) }
{
    let mut gate: u8 = 0;
    loop {
        if 24 <= gate {
            break None;
        }
        let this = OneQubitGate {
            number: usize::from(gate),
        };
        if this.images() == images {
            break Some(gate);
        }
        gate += 1;
    }
}

// The gate that a product of H and SZ is. By number, as the inverse below: an index of products is no gate, and what is answered is told.
#[tactic(auto, unfolding(clifford_gates::specs::GateNumbers::product_gates))]
pub(crate) fn product_number(index: usize) -> usize
    requires { index < 24 }
    ensures { result ≡ slice_index product_gates index }
{
    usize::from(PRODUCTS[index])
}

#[tactic(auto, unfolding(clifford_gates::specs::GateNumbers::inverse_numbers))]
pub(crate) fn inverse_number(gate: usize) -> u8
    requires { gate < 38 }
    ensures { result ≡ slice_index inverse_numbers gate }
{
    INVERSES[gate]
}

// ---- rows

impl PlacedGate {
    // The width of its tableau.
    pub(crate) fn width(self) -> usize
        ensures { GateSpan self.number self.first self.second result }
    {
        match Gate::numbered(self.number) {
            Gate::One(_) => self.first + 1,
            Gate::Two(_) => self.first.max(self.second) + 1,
        }
    }

    // The image that this row has, also where its tableau is narrower.
    pub(crate) fn image(self, row: RowPlace) -> RowImage
        ensures { RowImageOf (max (gate_width self.number self.first self.second) (suc (row_qubit row.width row.r))) (image_of (gate_tableau self.number self.first self.second) (row_qubit row.width row.r) (row_letter row.width row.r)) result }
    {
        let k = row.qubit();
        let letter = row.letter();
        match Gate::numbered(self.number) {
            Gate::One(gate) => {
                if k == self.first {
                    gate.row_image(k, letter)
                } else {
                    IDENTITY.row_image(k, letter)
                }
            }
            Gate::Two(gate) => {
                let at = 6 * usize::from(letter);
                if k == self.first {
                    gate.row_image(at - 6, self.first, self.second)
                } else if k == self.second {
                    gate.row_image(at - 3, self.first, self.second)
                } else {
                    IDENTITY.row_image(k, letter)
                }
            }
        }
    }
}

// An image as a work row.
#[tactic(auto, using(crate::proofs::GateWriting::image_puts))]
pub(crate) fn put_image(image: RowImage, work: &mut [u8])
    requires { PutsImage image work.old }
    ensures { work.new ≡ encode_string (letters_in work.old) (row_image_string image) }
{
    clear_row(work, image.sign);
    multiply_letter(work, image.first_qubit, image.first_letter);
    multiply_letter(work, image.second_qubit, image.second_letter);
}
