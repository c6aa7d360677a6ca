// String records: reading them, comparing them, making them from entries, writing them as text. Ports pauli_string.rs of PECOS, changed:
// Copyright 2024 The PECOS Developers, Apache License, Version 2.0.
#![tactic(auto, using(crate::proofs::Asking::by_questions, crate::proofs::StringReads::string_reads), unfolding(crate::specs::Questions::get_questions, crate::specs::Answers::answer_to, crate::specs::Answers::reply_of, crate::specs::Answers::reply_to))]

ghost use Rattle.std.specs.Prelude.{◌≡◌};
ghost use Rattle.pauli.specs.SparseText.{to_sparse_questions};
ghost use Rattle.pauli.specs.Promises.{PhaseOfString, LetterOfString, PlacesCounted, FromEntries, FromSparseText, FromDenseText, FromText, SparseTextWritten};

use crate::STRING_LENGTH;
use crate::dense_reader::{check_letters, text_end, write_dense};
use crate::entries::{Marks, check_entries};
use crate::questions::{check_qubit, check_room, check_string, check_strings};
use crate::refusal::Refusal;
use crate::rows::count_anticommuting;
use crate::sparse_reader::read_tokens;
use crate::sparse_text::{sparse_length, write_sparse};
use crate::text::{any_digit, check_ascii, read_head};

// The phase of a string record.
pub fn phase(s: &[u8]) -> Result<u8, Refusal>
    ensures { PhaseOfString s.now result }
{
    check_string(s)?;
    Ok(s[0])
}

// The letter of a string record at one qubit.
pub fn get(s: &[u8], qubit: usize) -> Result<u8, Refusal>
    ensures { LetterOfString s.now qubit result }
{
    check_string(s)?;
    check_qubit(qubit)?;
    Ok(s[qubit + 1])
}

// At how many qubits two string records anticommute; they commute where that is even. The kernel counts modulo 256, which the 128
// places of a record never reach.
pub fn anticommuting_places(s: &[u8], t: &[u8]) -> Result<usize, Refusal>
    ensures { PlacesCounted s.now t.now result }
{
    check_strings(s, t)?;
    Ok(usize::from(count_anticommuting(&s[1..], &t[1..])))
}

// The string with this phase and these entries, byte pairs (letter, qubit).
pub fn with_phase_and_paulis(phase: u8, entries: &[u8], dst: &mut [u8]) -> Result<(), Refusal>
    ensures { FromEntries phase entries.now dst.old dst.new result }
{
    check_entries(phase, entries)?;
    let marks = Marks::of(entries);
    marks.check(dst.len())?;
    marks.write(phase, dst);
    Ok(())
}

// The string that a sparse text names.
#[tactic(auto, using(crate::proofs::SparseStrings::sparse_refusals))]
pub fn from_sparse_str(t: &[u8], dst: &mut [u8]) -> Result<(), Refusal>
    ensures { FromSparseText t.now dst.old dst.new result }
{
    check_ascii(t)?;
    let head = read_head(t);
    let marks = read_tokens(t, head.at)?;
    marks.check(dst.len())?;
    marks.write(head.phase, dst);
    Ok(())
}

// The string that a dense text names.
pub fn from_dense_str(t: &[u8], dst: &mut [u8]) -> Result<(), Refusal>
    ensures { FromDenseText t.now dst.old dst.new result }
{
    check_ascii(t)?;
    let head = read_head(t);
    let end = text_end(t).max(head.at);
    let body = &t[head.at..end];
    check_letters(body, head.at)?;
    check_room(STRING_LENGTH, dst.len())?;
    write_dense(head.phase, body, dst);
    Ok(())
}

// The string that a text names: sparse where it holds a digit, otherwise dense.
#[tactic(auto, using(crate::proofs::Asking::by_questions), unfolding(crate::specs::Text::from_str_questions, crate::specs::Text::text_questions, crate::specs::Text::from_sparse_questions, crate::specs::Text::from_dense_questions, crate::specs::Text::text_record, crate::specs::Text::text_string, crate::specs::Text::sparse_record, crate::specs::Text::dense_record))]
pub fn from_str(t: &[u8], dst: &mut [u8]) -> Result<(), Refusal>
    ensures { FromText t.now dst.old dst.new result }
{
    if any_digit(t) {
        return from_sparse_str(t, dst);
    }
    from_dense_str(t, dst)
}

// The questions of `to_sparse_str`, in their order: the room is asked for this very text.
#[tactic(auto, using(crate::proofs::StringTexts::string_texts))]
fn check_to_sparse(s: &[u8], room: usize) -> Result<(), Refusal>
    ensures { result ≡ to_sparse_questions s.now room }
{
    check_string(s)?;
    check_room(sparse_length(s[0], &s[1..]), room)
}

// The sparse text of a string record; the answer is its length.
#[tactic(auto, using(crate::proofs::Asking::by_questions, crate::proofs::StringTexts::written_texts), unfolding(crate::specs::Answers::answer_to, crate::specs::Answers::reply_of, crate::specs::Answers::reply_to))]
pub fn to_sparse_str(s: &[u8], dst: &mut [u8]) -> Result<usize, Refusal>
    ensures { SparseTextWritten s.now dst.old dst.new result }
{
    check_to_sparse(s, dst.len())?;
    Ok(write_sparse(s[0], &s[1..], dst))
}
