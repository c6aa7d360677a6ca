// Tableaux: their action on strings, their composition, their images. Ports clifford_rep.rs of PECOS, changed:
// Copyright 2024 The PECOS Developers, Apache License, Version 2.0.
ghost use Rattle.std.specs.Prelude.{◌≡◌, []};
ghost use Rattle.std.specs.Result.{result_map_both, result_unwrap_or};
ghost use Rattle.clifford_group.specs.Conjugation.{Generator, generator, of_x, of_z};
ghost use Rattle.pauli.specs.Layout.{letter_byte};
ghost use Rattle.clifford.specs.Layout.{generator_row};
ghost use Rattle.clifford.specs.Display.{name_text, display_answer, starts_with};
ghost use Rattle.clifford.specs.Questions.{image_questions, set_questions};
ghost use Rattle.clifford.specs.Tableaux.{image_part};
ghost use Rattle.clifford.specs.Inside.Rows.{SlotIndex};
ghost use Rattle.clifford.specs.Promises.{ImageAt, ImageSet, IdentityWritten, Applied, Composed, Extended, Inverted, ValidityTold, FromPauliString, SupportWritten, Displayed};

use crate::applying::apply_string;
use crate::layout::{row, row_offset, width};
use crate::pauli_tableau::span;
use crate::questions::{check_slot, check_tableau, check_tableaux, check_width};
use crate::setting::{check_inside, set_row};
use crate::tableau::TableauRecord;
use crate::writing::{Composite, Inverse, OfPauli, Widened, write_made};
use pauli::STRING_LENGTH;
use pauli::questions::{check_room, check_string};
use pauli::refusal::Refusal;

// ---- images

// A letter whose images a tableau has, one for each qubit: X or Z.
pub trait Generator {
    ghost letter: { Generator };

    // The rows before those of its images: X rows come first.
    fn before(width: usize) -> usize
        ensures { result ≡ generator_row letter width 0 };

    // Its byte.
    fn byte() -> u8
        ensures { result ≡ letter_byte (generator letter) };
}

#[derive(Clone, Copy, Debug, PartialEq, Eq)]
pub struct X;

#[derive(Clone, Copy, Debug, PartialEq, Eq)]
pub struct Z;

impl Generator for X {
    ghost letter = { of_x };

    fn before(_width: usize) -> usize {
        0
    }

    #[tactic(auto, unfolding(pauli::specs::Layout::letter_byte))]
    fn byte() -> u8 {
        1
    }
}

impl Generator for Z {
    ghost letter = { of_z };

    fn before(width: usize) -> usize {
        width
    }

    #[tactic(auto, unfolding(pauli::specs::Layout::letter_byte))]
    fn byte() -> u8 {
        2
    }
}

// The row of the letter's image on this qubit.
#[tactic(auto, unfolding(crate::specs::Layout::generator_row))]
pub(crate) fn image_row<G: Generator>(width: usize, slot: usize) -> usize
    requires { SlotIndex width slot }
    ensures { result ≡ generator_row G.letter width slot }
{
    G::before(width) + slot
}

// Whether a qubit has images to hand out.
#[tactic(auto, using(pauli::proofs::Asking::by_questions), unfolding(crate::specs::Questions::image_questions))]
fn check_image(t: &[u8], slot: usize) -> Result<(), Refusal>
    ensures { result ≡ image_questions t.now slot }
{
    check_tableau(t)?;
    check_slot(slot, width(t))
}

// The image of X or Z on this qubit, the row's own part of the record.
#[tactic(auto, using(pauli::proofs::Asking::by_questions, crate::proofs::Images::images), unfolding(crate::specs::Tableaux::image_part, pauli::specs::Answers::answer_to))]
pub fn image<G: Generator>(t: &[u8], slot: usize) -> Result<&[u8], Refusal>
    ensures { result_map_both (λ part. part.now) (λ why. why) result ≡ image_part G.letter t.now slot }
{
    check_image(t, slot)?;
    Ok(row(t, image_row::<G>(width(t), slot)))
}

// The row's part of the record, or no bytes where there is none to hand out.
pub fn image_or_none<G: Generator>(t: &[u8], slot: usize) -> &[u8]
    ensures { result.now ≡ result_unwrap_or (image_part G.letter t.now slot) [] }
{
    image::<G>(t, slot).unwrap_or(&t[..0])
}

// Where in the record that image starts.
#[tactic(auto, using(pauli::proofs::Asking::by_questions, crate::proofs::Images::image_offsets), unfolding(pauli::specs::Answers::answer_to, pauli::specs::Answers::reply_of, pauli::specs::Answers::reply_to))]
pub fn image_offset<G: Generator>(t: &[u8], slot: usize) -> Result<usize, Refusal>
    ensures { ImageAt G.letter t.now slot result }
{
    check_image(t, slot)?;
    let n = width(t);
    Ok(row_offset(n, image_row::<G>(n, slot)))
}

#[tactic(auto, using(pauli::proofs::Asking::by_questions), unfolding(crate::specs::Questions::set_questions, crate::specs::Questions::apply_questions))]
fn check_set(t: &[u8], slot: usize, s: &[u8]) -> Result<(), Refusal>
    ensures { result ≡ set_questions t.now slot s.now }
{
    check_tableau(t)?;
    check_string(s)?;
    let n = width(t);
    check_inside(s, n)?;
    check_slot(slot, n)
}

// The image of X or Z on this qubit, replaced by the string s.
#[tactic(auto, using(crate::proofs::SetImage::image_setting))]
pub fn set_image<G: Generator>(t: &mut [u8], slot: usize, s: &[u8]) -> Result<(), Refusal>
    ensures { ImageSet G.letter slot s.now t.old t.new result }
{
    check_set(t, slot, s)?;
    set_row(t, image_row::<G>(width(t), slot), s);
    Ok(())
}

// ---- identity

// The identity of width n: the tableau of width 0 widened.
#[tactic(auto, using(pauli::proofs::Asking::by_questions, crate::proofs::Answers::identities), unfolding(crate::specs::Questions::identity_answer))]
pub fn identity(n: usize, dst: &mut [u8]) -> Result<(), Refusal>
    ensures { IdentityWritten n dst.old dst.new result }
{
    check_width(n)?;
    let none = [0u8; 1];
    let t = TableauRecord { bytes: &none };
    write_made(&Widened { t, width: n }, dst)
}

// ---- apply

// The image of the string s.
#[tactic(auto, using(pauli::proofs::Asking::by_questions, crate::proofs::Answers::applying), unfolding(crate::specs::Questions::apply_answer, crate::specs::Questions::apply_questions))]
pub fn apply(t: &[u8], s: &[u8], dst: &mut [u8]) -> Result<(), Refusal>
    ensures { Applied t.now s.now dst.old dst.new result }
{
    check_tableau(t)?;
    check_string(s)?;
    check_room(STRING_LENGTH, dst.len())?;
    apply_string(&TableauRecord { bytes: t }, s, &mut dst[0..STRING_LENGTH]);
    Ok(())
}

// ---- compose

// a composed with b: b acts first.
#[tactic(auto, using(pauli::proofs::Asking::by_questions, crate::proofs::Answers::compositions), unfolding(crate::specs::Questions::compose_answer))]
pub fn compose(a: &[u8], b: &[u8], dst: &mut [u8]) -> Result<(), Refusal>
    ensures { Composed a.now b.now dst.old dst.new result }
{
    check_tableaux(a, b)?;
    let a = TableauRecord { bytes: a };
    let b = TableauRecord { bytes: b };
    let width = a.width().max(b.width());
    write_made(&Composite { a, b, width }, dst)
}

// ---- extended_to

// The tableau widened to n; a smaller n gives a copy.
#[tactic(auto, using(pauli::proofs::Asking::by_questions, crate::proofs::Answers::extensions), unfolding(crate::specs::Questions::extend_answer, crate::specs::Questions::extend_questions))]
pub fn extended_to(t: &[u8], n: usize, dst: &mut [u8]) -> Result<(), Refusal>
    ensures { Extended t.now n dst.old dst.new result }
{
    check_tableau(t)?;
    check_width(n)?;
    let t = TableauRecord { bytes: t };
    let width = t.width().max(n);
    write_made(&Widened { t, width }, dst)
}

// ---- inverse

// The inverse. Of an invalid tableau, what the same rule gives.
#[tactic(auto, using(pauli::proofs::Asking::by_questions, crate::proofs::Answers::inverses), unfolding(crate::specs::Questions::inverse_answer))]
pub fn inverse(t: &[u8], dst: &mut [u8]) -> Result<(), Refusal>
    ensures { Inverted t.now dst.old dst.new result }
{
    check_tableau(t)?;
    let t = TableauRecord { bytes: t };
    write_made(&Inverse { t }, dst)
}

// ---- is_valid

// Whether the tableau is valid.
#[tactic(auto, using(pauli::proofs::Asking::by_questions, crate::proofs::IsValid::validity), unfolding(pauli::specs::Answers::answer_to, pauli::specs::Answers::reply_of, pauli::specs::Answers::reply_to))]
pub fn is_valid(t: &[u8]) -> Result<bool, Refusal>
    ensures { ValidityTold t.now result }
{
    check_tableau(t)?;
    Ok(TableauRecord { bytes: t }.is_valid())
}

// ---- the tableau of a Pauli string

// The string as a tableau, of width 1 where it has no letters.
#[tactic(auto, using(pauli::proofs::Asking::by_questions, crate::proofs::Answers::pauli_tableaux), unfolding(crate::specs::Questions::pauli_answer))]
pub fn from_pauli_string(s: &[u8], dst: &mut [u8]) -> Result<(), Refusal>
    ensures { FromPauliString s.now dst.old dst.new result }
{
    check_string(s)?;
    let width = span(s);
    write_made(&OfPauli { s, width }, dst)
}

// ---- support_qubits

// The qubits of the support, rising, and their number.
#[tactic(auto, using(pauli::proofs::Asking::by_questions, crate::proofs::SupportQubits::support_answers), unfolding(crate::specs::Questions::support_answer, pauli::specs::Answers::answer_to, pauli::specs::Answers::reply_of, pauli::specs::Answers::reply_to))]
pub fn support_qubits(t: &[u8], dst: &mut [u8]) -> Result<usize, Refusal>
    ensures { SupportWritten t.now dst.old dst.new result }
{
    check_tableau(t)?;
    let tableau = TableauRecord { bytes: t };
    // They are counted before any is written, since a refusal writes nothing.
    let count = tableau.support_count();
    check_room(count, dst.len())?;
    tableau.write_support(dst);
    Ok(count)
}

// ---- display

#[tactic(auto, using(pauli::proofs::Asking::by_questions), unfolding(crate::specs::Display::display_answer))]
fn check_display(t: &[u8], room: usize) -> Result<(), Refusal>
    ensures { result ≡ display_answer t.now room }
{
    check_tableau(t)?;
    check_room(TableauRecord { bytes: t }.display_length(), room)
}

// The text that shows a tableau; the answer is its length.
#[tactic(auto, using(pauli::proofs::Asking::by_questions, crate::proofs::Display::displays), unfolding(pauli::specs::Answers::answer_to, pauli::specs::Answers::reply_of, pauli::specs::Answers::reply_to))]
pub fn display(t: &[u8], dst: &mut [u8]) -> Result<usize, Refusal>
    ensures { Displayed t.now dst.old dst.new result }
{
    check_display(t, dst.len())?;
    Ok(TableauRecord { bytes: t }.write_display(dst))
}

// Whether a text starts as every display text does.
#[tactic(auto, unfolding(crate::specs::Display::starts_with))]
pub fn starts_with_name(text: &[u8]) -> bool
    ensures { result ≡ starts_with name_text text.now }
{
    text.starts_with(b"CliffordRep(")
}
