// Products of letters and of strings. Ports algebra.rs of PECOS, changed:
// Copyright 2024 The PECOS Developers, Apache License, Version 2.0.
ghost use Rattle.std.specs.Prelude.{◌≡◌, ◌<◌, ◌++◌, drop};
ghost use Rattle.pauli_group.specs.Phase.{◌·◌};
ghost use Rattle.pauli_group.specs.Letter.{letter_phase};
ghost use Rattle.pauli_group.specs.Papers.{power};
ghost use Rattle.pauli.specs.Layout.{letter_of};
ghost use Rattle.pauli.specs.Rows.{letter_bytes_product};
ghost use Rattle.pauli.specs.Questions.{strings_questions};
ghost use Rattle.pauli.specs.Strings.{product_record};
ghost use Rattle.pauli.specs.Inside.Turns.{LetterBytes};
ghost use Rattle.pauli.specs.Inside.Products.{seen_with, Looked, Operands, Beginning, Stepping, Stepped, RowMultiplied};
ghost use Rattle.pauli.specs.Promises.{LettersMultiplied, StringsMultiplied};

use crate::questions::{check_pair, check_room, check_strings};
use crate::refusal::Refusal;
use crate::rows::{letter_turns, turned_phase};
use crate::{QUBITS, STRING_LENGTH};

// A phase and a letter.
#[derive(Clone, Copy)]
pub struct PhasedLetter(pub u8, pub u8);

// The product of two letters: I is neutral, equal letters give I, XY = iZ, YZ = iX, ZX = iY, and -i in the reverse orders.
// A byte above 3 is read as 3.
#[tactic(auto, unfolding(pauli_group::specs::Letter::letter_product, pauli_group::specs::Letter::letter_phase, pauli_group::specs::Letter::letter_mul, crate::specs::Layout::phase_byte, crate::specs::Layout::letter_byte, crate::specs::Layout::letter_of, crate::specs::Rows::product_phase_byte, crate::specs::Rows::product_letter_byte, crate::specs::Rows::letter_bytes_product))]
pub fn multiply_paulis(a: u8, b: u8) -> PhasedLetter
    ensures { result ≡ letter_bytes_product a b }
{
    match a {
        0 => match b {
            0 => PhasedLetter(0, 0),
            1 => PhasedLetter(0, 1),
            2 => PhasedLetter(0, 2),
            _ => PhasedLetter(0, 3),
        },
        1 => match b {
            0 => PhasedLetter(0, 1),
            1 => PhasedLetter(0, 0),
            2 => PhasedLetter(3, 3),
            _ => PhasedLetter(2, 2),
        },
        2 => match b {
            0 => PhasedLetter(0, 2),
            1 => PhasedLetter(2, 3),
            2 => PhasedLetter(0, 0),
            _ => PhasedLetter(3, 1),
        },
        _ => match b {
            0 => PhasedLetter(0, 3),
            1 => PhasedLetter(3, 2),
            2 => PhasedLetter(2, 1),
            _ => PhasedLetter(0, 0),
        },
    }
}

// The product of two letters, as a phase and a letter.
#[tactic(auto, using(crate::proofs::Asking::by_questions), unfolding(crate::specs::Answers::answer_to, crate::specs::Answers::reply_of, crate::specs::Answers::reply_to))]
pub fn letter_product(a: u8, b: u8) -> Result<PhasedLetter, Refusal>
    ensures { LettersMultiplied a b result }
{
    check_pair(a, b)?;
    Ok(multiply_paulis(a, b))
}

// What one pass over two strings sees: the largest byte, and the places that their product takes.
#[derive(Clone, Copy)]
struct Sight {
    largest: u8,
    places: u8,
}

// What is seen with the bytes of one more place, q.
#[tactic(auto, using(crate::proofs::Asking::by_tests, crate::proofs::Asking::by_questions), unfolding(crate::specs::Inside::Products::seen_with))]
fn see(sight: Sight, x: u8, y: u8, q: usize) -> Sight
    requires { q < 128 }
    ensures { result ≡ seen_with sight x y q }
{
    let letter = x.max(y);
    let largest = sight.largest.max(letter);
    let places = if letter == 0 {
        sight.places
    } else {
        // A usize has no From into u8; `as` is proved to keep the value.
        (q + 1) as u8
    };
    Sight { largest, places }
}

// Looks through two string records at once. What is not two string records is seen as bad, so that the questions are then put one by
// one. No Option: `mul` would need places for a None too, though `check_seen` has refused it.
fn look(s: &[u8], t: &[u8]) -> Sight
    ensures { Looked s.now t.now result }
{
    if s.len() != STRING_LENGTH || t.len() != STRING_LENGTH {
        return Sight {
            largest: 255,
            places: 0,
        };
    }
    let mut sight = Sight {
        largest: s[0].max(t[0]),
        places: 0,
    };
    for (q, (x, y)) in s[1..].iter().zip(&t[1..]).enumerate() {
        sight = see(sight, *x, *y, q);
    }
    sight
}

// The questions on two strings that were looked through.
fn check_seen(s: &[u8], t: &[u8], largest: u8) -> Result<(), Refusal>
    requires { largest < 4 → strings_questions s.now t.now ≡ Ok tt }
    ensures { result ≡ strings_questions s.now t.now }
{
    if largest < 4 {
        return Ok(());
    }
    check_strings(s, t)
}

// The turns with those of one more product of letters; the byte wraps at 256, a multiple of 4.
#[tactic(auto, using(crate::proofs::Turns::places))]
fn add_turns(turns: u8, x: u8, y: u8) -> u8
    requires { LetterBytes x y }
    ensures { power result ≡ power turns · letter_phase (letter_of x) (letter_of y) }
{
    turns.wrapping_add(letter_turns(x, y))
}

// The product's letters at the 32 places from `at` on, taken together; the answer is the turns of their phases. The row by index: of
// what is written through a zip of `iter_mut` a proof knows the length alone.
fn multiply_step(s: &[u8], t: &[u8], at: usize, row: &mut [u8]) -> u8
    requires { Stepping s.now t.now at row.old }
    ensures { Stepped s.now t.now at row.new result }
{
    let mut turns: u8 = 0;
    let letters = s[at + 1..at + 33].iter().zip(&t[at + 1..at + 33]);
    for (q, (x, y)) in letters.enumerate() {
        turns = add_turns(turns, *x, *y);
        row[at + q] = *x ^ *y;
    }
    turns
}

// The product's letters, written over a row of I; the answer is the turns of their phases. The loop ends with the step that has the last
// place: behind it both strings are I.
#[tactic(auto, using(crate::proofs::Multiplying::taking))]
fn multiply_places(s: &[u8], t: &[u8], places: usize, row: &mut [u8]) -> u8
    requires { Beginning s.now t.now places row.old }
    ensures { RowMultiplied s.now t.now row.new result }
{
    let mut turns: u8 = 0;
    for step in 0..places.div_ceil(32) {
        turns = turns.wrapping_add(multiply_step(s, t, 32 * step, row));
    }
    turns
}

// The product of two strings, written over the first 129 bytes of the destination. No struct holds the two: each function here asks for
// a row or a destination of its own beside them.
fn write_product(s: &[u8], t: &[u8], places: usize, dst: &mut [u8])
    requires { Operands s.now t.now places dst.old }
    ensures { dst.new ≡ product_record s.now t.now ++ drop 129 dst.old }
{
    let mut row = [0u8; QUBITS];
    let turns = multiply_places(s, t, places, &mut row);
    dst[1..STRING_LENGTH].copy_from_slice(&row);
    dst[0] = turned_phase(s[0], t[0], turns);
}

// The product s·t of two string records, and the places that it took: 1 + the last at which either has a letter other than I, or 0.
#[tactic(auto, using(crate::proofs::Asking::by_questions, crate::proofs::Multiplying::string_products), unfolding(crate::specs::Questions::mul_questions, crate::specs::Answers::answer_to, crate::specs::Answers::reply_of, crate::specs::Answers::reply_to))]
pub fn mul(s: &[u8], t: &[u8], dst: &mut [u8]) -> Result<usize, Refusal>
    ensures { StringsMultiplied s.now t.now dst.old dst.new result }
{
    let sight = look(s, t);
    check_seen(s, t, sight.largest)?;
    check_room(STRING_LENGTH, dst.len())?;
    let places = usize::from(sight.places);
    write_product(s, t, places, dst);
    Ok(places)
}
