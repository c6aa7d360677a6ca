// Entries, byte pairs (letter, qubit), read into a mark for each qubit, so that a duplicate is found before anything is written. Ports
// `with_phase_and_paulis` of pauli_string.rs of PECOS, changed: Copyright 2024 The PECOS Developers, Apache License, Version 2.0.
ghost use Rattle.std.specs.Prelude.{◌≡◌, ◌<◌, ◌∷◌, ◌++◌, length, drop, replicate, slice_index_or, slice_set};
ghost use Rattle.pauli.specs.declared.entries.Mark.TheVariants.{Unnamed};
ghost use Rattle.pauli.specs.Inside.Marks.{mark_once, mark_more, unmarked, marks_of, EntriesFit, marks_question, letters_marked, RecordFits, Paired};
ghost use Rattle.pauli.specs.Questions.{even_question, entry_letters_question, entry_qubits_question, entry_questions, room_question, ◌and_then◌};

use crate::questions::{check_byte, check_room};
use crate::refusal::Refusal;
use crate::{QUBITS, STRING_LENGTH};

#[tactic(auto, using(crate::proofs::Asking::by_tests, crate::proofs::Asking::by_questions), unfolding(crate::specs::Questions::even_question))]
fn check_even(entries: &[u8]) -> Result<(), Refusal>
    ensures { result ≡ even_question entries.now }
{
    if entries.len() % 2 != 0 {
        return Err(Refusal::Length);
    }
    Ok(())
}

// The entries, pairs (letter, qubit).
fn pairs(entries: &[u8]) -> &[[u8; 2]]
    ensures { Paired entries.now result.now }
{
    entries.as_chunks().0
}

// Two loops: each letter is asked before any qubit.
#[tactic(auto, using(crate::proofs::EntryMarks::entry_scans))]
fn check_entry_letters(entries: &[u8]) -> Result<(), Refusal>
    ensures { result ≡ entry_letters_question entries.now }
{
    for (j, [letter, _]) in pairs(entries).iter().enumerate() {
        if 3 < *letter {
            return Err(Refusal::BadByte { offset: 2 * j });
        }
    }
    Ok(())
}

#[tactic(auto, using(crate::proofs::EntryMarks::entry_scans))]
fn check_entry_qubits(entries: &[u8]) -> Result<(), Refusal>
    ensures { result ≡ entry_qubits_question entries.now }
{
    for [_, qubit] in pairs(entries) {
        let qubit = usize::from(*qubit);
        if QUBITS <= qubit {
            return Err(Refusal::Qubit { qubit });
        }
    }
    Ok(())
}

// The questions put to a phase and to entries before their qubits are compared.
#[tactic(auto, using(crate::proofs::Asking::by_tests, crate::proofs::Asking::by_questions), unfolding(crate::specs::Questions::entry_questions))]
pub(crate) fn check_entries(phase: u8, entries: &[u8]) -> Result<(), Refusal>
    ensures { result ≡ entry_questions phase entries.now }
{
    check_byte(phase)?;
    check_even(entries)?;
    check_entry_letters(entries)?;
    check_entry_qubits(entries)
}

// What the entries read so far say of a qubit: its letter, where one entry names it. The letters stand first and in the order of their
// bytes, so that `as` gives a letter's byte, for which there is no From.
#[derive(Clone, Copy)]
pub(crate) enum Mark {
    I,
    X,
    Z,
    Y,
    Unnamed,
    Twice,
}

// The mark of one entry, by its letter; one above 3 is read as 3.
impl From<u8> for Mark {
    ghost from_gives = { λ letter mark. mark ≡ mark_once letter };

    #[tactic(auto, unfolding(crate::specs::Inside::Marks::mark_once))]
    fn from(letter: u8) -> Mark {
        match letter {
            0 => Mark::I,
            1 => Mark::X,
            2 => Mark::Z,
            _ => Mark::Y,
        }
    }
}

impl Mark {
    // After one more entry, with this letter.
    #[tactic(auto, unfolding(crate::specs::Inside::Marks::mark_more))]
    fn more(self, letter: u8) -> Mark
        ensures { result ≡ mark_more self letter }
    {
        match self {
            Mark::Unnamed => Mark::from(letter),
            _ => Mark::Twice,
        }
    }

    // The letter that it stands for: I but where one entry names the qubit.
    #[tactic(auto, unfolding(crate::specs::Inside::Marks::unmarked))]
    fn letter(self) -> u8
        ensures { result ≡ unmarked self }
    {
        match self {
            Mark::Unnamed | Mark::Twice => 0,
            _ => self as u8,
        }
    }
}

// A mark for each qubit.
#[derive(Clone, Copy)]
pub(crate) struct Marks([Mark; QUBITS]);

impl Marks {
    // No entry marked.
    pub(crate) fn new() -> Marks
        ensures { result.0 ≡ replicate 128 Unnamed }
    {
        Marks([Mark::Unnamed; QUBITS])
    }

    // One more entry with this letter on this qubit.
    pub(crate) fn mark(&mut self, letter: u8, qubit: usize)
        requires { qubit < 128 }
        ensures { self.new.0 ≡ slice_set self.old.0 qubit (mark_more (slice_index_or self.old.0 qubit Unnamed) letter) }
    {
        self.0[qubit] = self.0[qubit].more(letter);
    }

    // All entries marked.
    #[tactic(auto, using(crate::proofs::EntryMarks::marks))]
    pub(crate) fn of(entries: &[u8]) -> Marks
        requires { EntriesFit entries.now }
        ensures { result ≡ marks_of entries.now }
    {
        let mut marks = Marks::new();
        for [letter, qubit] in pairs(entries) {
            marks.mark(*letter, usize::from(*qubit));
        }
        marks
    }

    // Question 12 by the marks.
    fn check_once(&self) -> Result<(), Refusal>
        ensures { result ≡ marks_question self.now.0 }
    {
        match self.0.iter().position(|m| matches!(m, Mark::Twice)) {
            Some(qubit) => Err(Refusal::Duplicate { qubit }),
            None => Ok(()),
        }
    }

    // Question 12 by the marks, then 7.
    #[tactic(auto, using(crate::proofs::Asking::questions))]
    pub(crate) fn check(&self, room: usize) -> Result<(), Refusal>
        ensures { result ≡ (marks_question self.now.0 and_then room_question 129 room) }
    {
        self.check_once()?;
        check_room(STRING_LENGTH, room)
    }

    // The letters that the marks stand for.
    fn write_letters(&self, row: &mut [u8])
        requires { length row.old ≡ 128 }
        ensures { row.new ≡ letters_marked 128 self.now.0 }
    {
        // By place: of what is written through a zip of `iter_mut` a proof knows the length alone, and by `map` 20 entries take 749 ns,
        // where the Rust takes 166.
        for (q, letter) in row.iter_mut().enumerate() {
            *letter = self.0[q].letter();
        }
    }

    // The string record with this phase and the letters that the marks stand for.
    pub(crate) fn write(&self, phase: u8, dst: &mut [u8])
        requires { RecordFits dst.old }
        ensures { dst.new ≡ phase ∷ letters_marked 128 self.now.0 ++ drop 129 dst.old }
    {
        self.write_letters(&mut dst[1..STRING_LENGTH]);
        dst[0] = phase;
    }
}
