// Sparse text, token by token: each letter with its index is read and its qubit marked. Ports `from_sparse_str` of pauli_string.rs of
// PECOS, changed: Copyright 2024 The PECOS Developers, Apache License, Version 2.0.
ghost use Rattle.std.specs.Prelude.{◌≡◌, ◌≤◌, length, drop};
ghost use Rattle.pauli.specs.Inside.Reading.{LetterAt, WordAt, EntryRead, tokens_read};
ghost use Rattle.pauli.specs.Answers.{answer_to};
ghost use Rattle.pauli.specs.Text.{tokens, index_questions, index_value};

use crate::QUBITS;
use crate::entries::Marks;
use crate::refusal::Refusal;
use crate::text::{letter_named, read_numeral, skip_spaces, skip_word};

// One letter and its qubit, and the offset after them. A text and an offset in it are no struct: most functions answer an offset, a
// refusal's or the next, and each would have to be made a place of the text again.
#[derive(Clone, Copy)]
pub(crate) struct Entry {
    pub letter: u8,
    pub qubit: usize,
    pub next: usize,
}

// The qubit that the index bs names, which stands at this offset.
#[tactic(auto, using(crate::proofs::Asking::by_tests, crate::proofs::Asking::by_questions), unfolding(crate::specs::Inside::Reading::index_numeral, crate::specs::Text::index_questions, crate::specs::Answers::answer_to, pauli_group::specs::PauliString::qubits))]
fn read_index(bs: &[u8], offset: usize) -> Result<usize, Refusal>
    ensures { result ≡ answer_to (index_questions offset bs.now) (index_value bs.now) }
{
    let Some(qubit) = read_numeral(bs) else {
        return Err(Refusal::NotNumeral { offset });
    };
    if qubit < QUBITS {
        return Ok(qubit);
    }
    Err(Refusal::TextQubit { offset })
}

// A letter that stands alone at this offset: its index is the next token.
#[tactic(auto, using(crate::proofs::SparseReading::sparse_entries))]
fn read_apart(t: &[u8], at: usize, letter: u8) -> Result<Entry, Refusal>
    requires { LetterAt t.now at letter }
    ensures { EntryRead (tokens at (drop at t.now)) t.now at result }
{
    let from = skip_spaces(t, at + 1);
    if t.len() <= from {
        return Err(Refusal::NoIndex { offset: at });
    }
    let next = skip_word(t, from);
    let qubit = read_index(&t[from..next], from)?;
    Ok(Entry {
        letter,
        qubit,
        next,
    })
}

// The letter and index at this offset, where a token begins.
#[tactic(auto, using(crate::proofs::SparseReading::sparse_entries), unfolding(crate::specs::Inside::Reading::letter_if))]
fn read_entry(t: &[u8], at: usize) -> Result<Entry, Refusal>
    requires { WordAt t.now at }
    ensures { EntryRead (tokens at (drop at t.now)) t.now at result }
{
    let Some(letter) = letter_named(t[at]) else {
        return Err(Refusal::NotLetter { offset: at });
    };
    let from = at + 1;
    let next = skip_word(t, from);
    if next <= from {
        return read_apart(t, at, letter);
    }
    let qubit = read_index(&t[from..next], from)?;
    Ok(Entry {
        letter,
        qubit,
        next,
    })
}

// The marks of all tokens from an offset on. No `for`: where a token ends is known only when it is read.
pub(crate) fn read_tokens(t: &[u8], start: usize) -> Result<Marks, Refusal>
    requires { start ≤ length t.now }
    ensures { result ≡ tokens_read (tokens start (drop start t.now)) }
{
    let mut marks = Marks::new();
    let mut at = skip_spaces(t, start);
    while at < t.len() {
        let entry = read_entry(t, at)?;
        marks.mark(entry.letter, entry.qubit);
        at = skip_spaces(t, entry.next);
    }
    Ok(marks)
}
