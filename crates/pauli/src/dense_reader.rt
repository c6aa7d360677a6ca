// Dense text: a letter for each qubit, from the prefix to the trimmed end. Ports `from_dense_str` of pauli_string.rs of PECOS, changed:
// Copyright 2024 The PECOS Developers, Apache License, Version 2.0.
ghost use Rattle.std.specs.Prelude.{◌≡◌, ◌+◌, ◌<◌, ◌∷◌, ◌++◌, length, drop, slice_index};
ghost use Rattle.pauli.specs.Inside.Reading.{EndRead, letters_named};
ghost use Rattle.pauli.specs.Inside.Marks.{RecordFits};
ghost use Rattle.pauli.specs.Text.{is_identity, letter_named, dense_letter, letter_questions};

use crate::refusal::Refusal;
use crate::text::{is_space, letter_named};
use crate::{QUBITS, STRING_LENGTH};

// I, i or 1.
#[tactic(auto, unfolding(crate::specs::Text::is_identity), using(std::proofs::lemmas::Bool::Decides::nat_tests))]
fn is_identity(c: u8) -> bool
    ensures { result ≡ is_identity c }
{
    matches!(c, b'I' | b'i' | b'1')
}

// The place after the last byte that is no white space.
pub(crate) fn text_end(t: &[u8]) -> usize
    ensures { EndRead t.now result }
{
    t.len()
        - t.iter()
            .rev()
            .position(|c| !is_space(*c))
            .unwrap_or(t.len())
}

// One letter, at this offset, for this qubit.
#[tactic(auto, using(crate::proofs::DenseReading::dense_letters))]
fn check_letter(c: u8, offset: usize, qubit: usize) -> Result<(), Refusal>
    ensures { result ≡ dense_letter c offset qubit }
{
    if is_identity(c) {
        return Ok(());
    }
    if letter_named(c).is_none() {
        return Err(Refusal::NotLetter { offset });
    }
    if qubit < QUBITS {
        return Ok(());
    }
    Err(Refusal::TextQubit { offset })
}

// The letters of a body that begins at this offset, one after another.
#[tactic(auto, using(crate::proofs::DenseReading::letterings))]
pub(crate) fn check_letters(body: &[u8], offset: usize) -> Result<(), Refusal>
    requires { offset + length body.now < 18446744073709551616 }
    ensures { result ≡ letter_questions offset 0 body.now }
{
    for (i, c) in body.iter().enumerate() {
        check_letter(*c, offset + i, i)?;
    }
    Ok(())
}

// The letter that a body names for a qubit; I past its end.
#[tactic(auto, using(crate::proofs::TextBytes::named_or, crate::proofs::TextBytes::unnamed_past))]
fn letter_at(body: &[u8], qubit: usize) -> u8
    ensures { result ≡ letter_named (slice_index body.now qubit) }
{
    match body.get(qubit) {
        Some(c) => letter_named(*c).unwrap_or(0),
        None => 0,
    }
}

// The letters that a body names, over the destination; I past its end, where a zip of the two would stop.
#[tactic(auto, using(crate::proofs::DenseReading::named_fills))]
fn write_named(body: &[u8], dst: &mut [u8])
    ensures { dst.new ≡ letters_named (length dst.old) body.now }
{
    for (i, letter) in dst.iter_mut().enumerate() {
        *letter = letter_at(body, i);
    }
}

// The string record with this phase and the letters of this body.
pub(crate) fn write_dense(phase: u8, body: &[u8], dst: &mut [u8])
    requires { RecordFits dst.old }
    ensures { dst.new ≡ phase ∷ letters_named 128 body.now ++ drop 129 dst.old }
{
    write_named(body, &mut dst[1..STRING_LENGTH]);
    dst[0] = phase;
}
