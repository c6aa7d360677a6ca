// Sparse text, written. Ports `to_sparse_str` of pauli_string.rs of PECOS, changed:
// Copyright 2024 The PECOS Developers, Apache License, Version 2.0.
ghost use Rattle.std.specs.Prelude.{◌≡◌, ◌&&◌, length, ◌==◌};
ghost use Rattle.pauli.specs.Layout.{phase_of, letter_of};
ghost use Rattle.pauli.specs.SparseText.{prefix_text, letter_text, entry_word, row_text};
ghost use Rattle.pauli.specs.TextWriters.{Put};
ghost use Rattle.pauli.specs.Inside.TextWriting.{TextWritten, more_text};

use crate::QUBITS;
use crate::text_writer::TextWriter;

#[tactic(auto, unfolding(crate::specs::SparseText::letter_text, crate::specs::Layout::letter_of))]
fn letter_text(letter: u8) -> u8
    ensures { result ≡ letter_text (letter_of letter) }
{
    match letter {
        0 => b'I',
        1 => b'X',
        2 => b'Z',
        _ => b'Y',
    }
}

impl TextWriter<'_> {
    // +, -, +i or -i; a byte above 3 is read as 3.
    #[tactic(auto, unfolding(crate::specs::SparseText::prefix_text, crate::specs::Layout::phase_of))]
    fn put_prefix(&mut self, phase: u8)
        ensures { Put (prefix_text (phase_of phase)) self.old self.new }
    {
        match phase {
            0 => self.put_text(b"+"),
            1 => self.put_text(b"-"),
            2 => self.put_text(b"+i"),
            _ => self.put_text(b"-i"),
        }
    }

    // A letter and its qubit.
    #[tactic(auto, using(crate::proofs::TextWriters::entry_put), unfolding(crate::specs::SparseText::entry_word))]
    fn put_entry(&mut self, letter: u8, qubit: usize)
        ensures { Put (entry_word (letter_of letter) qubit) self.old self.new }
    {
        self.put(letter_text(letter));
        // A usize has no From into u64; `as` is proved to keep the value.
        self.put_decimal(qubit as u64);
    }

    // The entry of one qubit, where its letter is not I, with a space before it unless it is the first. The answer is whether there is
    // none yet.
    #[tactic(auto, using(crate::proofs::TextWriters::entries), unfolding(crate::specs::Inside::TextWriting::more_text, crate::specs::Inside::TextWriting::added, crate::specs::SparseText::words_at, crate::specs::Layout::letter_of))]
    fn put_more(&mut self, first: bool, letter: u8, qubit: usize) -> bool
        ensures text { Put (more_text first (letter_of letter) qubit) self.old self.new }
        ensures none { result ≡ (first && (letter == 0)) }
    {
        if letter == 0 {
            return first;
        }
        if first {
            self.put_entry(letter, qubit);
            return false;
        }
        self.put(b' ');
        self.put_entry(letter, qubit);
        false
    }

    // The sparse text of a phase and a row of letters, of which the first 128 count: I where no entry was written. Phase and letters are
    // no struct: a string record and a row of a tableau hold them at places of their own, and each caller would first make one.
    pub fn put_sparse(&mut self, phase: u8, letters: &[u8])
        ensures { Put (row_text phase letters.now) self.old self.new }
    {
        let n = letters.len().min(QUBITS);
        self.put_prefix(phase);
        let mut first = true;
        for (q, letter) in letters[..n].iter().enumerate() {
            first = self.put_more(first, *letter, q);
        }
        if first {
            self.put(b'I');
        }
    }
}

// That text over the front of the destination; the answer is its length.
pub(crate) fn write_sparse(phase: u8, letters: &[u8], dst: &mut [u8]) -> usize
    ensures { TextWritten (row_text phase letters.now) dst.old dst.new result }
{
    let mut writer = TextWriter::new(dst);
    writer.put_sparse(phase, letters);
    writer.place()
}

// Its length, found by writing nowhere: length and text cannot disagree. The display of a tableau finds its own so too; a function for
// both would take a closure that writes, and of a closure a contract knows only which answers its calls may give.
pub(crate) fn sparse_length(phase: u8, letters: &[u8]) -> usize
    ensures { result ≡ length (row_text phase letters.now) }
{
    write_sparse(phase, letters, &mut [])
}
