// The display text. Ports `impl Display` of clifford_rep.rs of PECOS, changed:
// Copyright 2024 The PECOS Developers, Apache License, Version 2.0.
ghost use Rattle.std.specs.Prelude.{◌≡◌, [], ◌∷◌, length};
ghost use Rattle.pauli.specs.SparseText.{letter_text};
ghost use Rattle.pauli.specs.TextWriters.{Put};
ghost use Rattle.pauli.specs.Inside.TextWriting.{TextWritten};
ghost use Rattle.clifford.specs.Display.{header_text, label_text, line_text, text_of_tableau};
ghost use Rattle.clifford.specs.Layout.{tableau_of, row_letter, row_qubit};

use crate::clifford_rep::{X, Z};
use crate::layout::{RowPlace, width};
use crate::tableau::{Row, TableauRecord};
use pauli::text_writer::TextWriter;

// The header, without its newline.
fn put_header(writer: &mut TextWriter<'_>, width: usize)
    ensures { Put (header_text width) writer.old writer.new }
{
    writer.put_text(b"CliffordRep(");
    // No From leads from usize to u64, and by TryFrom there would be a failure to answer, which never comes.
    writer.put_decimal(width as u64);
    writer.put_text(b" qubits):");
}

// The letter of the generator whose image the row is.
#[tactic(auto, using(pauli::proofs::Asking::by_tests, pauli::proofs::Asking::by_questions), unfolding(crate::specs::Layout::row_letter, pauli::specs::SparseText::letter_text))]
fn put_letter(writer: &mut TextWriter<'_>, row: RowPlace)
    ensures { Put (letter_text (row_letter row.width row.r) ∷ 95 ∷ []) writer.old writer.new }
{
    if row.is_x() {
        writer.put_text(b"X_")
    } else {
        writer.put_text(b"Z_")
    }
}

// The label of the row.
fn put_label(writer: &mut TextWriter<'_>, row: RowPlace)
    ensures { Put (label_text (row_letter row.width row.r) (row_qubit row.width row.r)) writer.old writer.new }
{
    writer.put_text(b"  ");
    put_letter(writer, row);
    // No From, as of the width.
    writer.put_decimal(row.qubit() as u64);
    writer.put_text(b" -> ");
}

impl Row<'_> {
    // Its line.
    #[tactic(auto, using(crate::proofs::Display::line_places))]
    fn put_line(&self, writer: &mut TextWriter<'_>)
        ensures { Put (line_text (tableau_of self.now.bytes.now) self.now.r) writer.old writer.new }
    {
        let row = RowPlace {
            width: width(self.bytes),
            r: self.r,
        };
        put_label(writer, row);
        writer.put_sparse(self.phase(), self.letters());
        writer.put_text(b"\n");
    }
}

impl TableauRecord<'_> {
    // The whole text, X and Z of each qubit; the answer is its length.
    pub(crate) fn write_display(&self, dst: &mut [u8]) -> usize
        ensures { TextWritten (text_of_tableau self.now.bytes.now) dst.old dst.new result }
    {
        let n = self.width();
        let mut writer = TextWriter::new(dst);
        put_header(&mut writer, n);
        writer.put_text(b"\n");
        for q in 0..n {
            let qubit = self.qubit(q);
            qubit.row::<X>().put_line(&mut writer);
            qubit.row::<Z>().put_line(&mut writer);
        }
        writer.place()
    }

    // Its length, found by writing nowhere, so that length and text can't disagree. One function shared with pauli's `sparse_length` would
    // take the writing as a closure, of which a contract knows only which answers its calls may give.
    pub(crate) fn display_length(&self) -> usize
        ensures { result ≡ length (text_of_tableau self.now.bytes.now) }
    {
        self.write_display(&mut [])
    }
}
