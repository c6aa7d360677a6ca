// The line of a refusal, for people. The wording of 14 and 15 is that of `PauliWidthError` of pauli_string.rs of PECOS:
// Copyright 2024 The PECOS Developers, Apache License, Version 2.0.
#![tactic(auto)]

ghost use Rattle.std.specs.Prelude.{◌≡◌};
ghost use Rattle.pauli.specs.TextWriters.{Put};
ghost use Rattle.pauli.specs.Inside.TextWriting.{TextWritten};
ghost use Rattle.refusal_wording.specs.RefusalLines.{sentence, has_detail, detail_text, is_width_error, width_error_text, wording, refusal_line};
ghost use Rattle.refusal_lines.specs.Promises.{LineWritten};

use pauli::questions::check_room;
use pauli::refusal::Refusal;
use pauli::text_writer::TextWriter;

// The sentence of a number; one that has none is unknown. No `Refusal`: C hands in numbers, and any three have a line.
#[tactic(auto, using(crate::proofs::LineWrites::sentence_arms), unfolding(refusal_wording::specs::RefusalLines::sentence, refusal_wording::specs::RefusalLines::sentences, refusal_wording::specs::RefusalLines::sentence_among))]
fn sentence(number: u64) -> &'static [u8]
    ensures { result.now ≡ sentence number }
{
    match number {
        1 => b"the width is not allowed",
        2 => b"the length is wrong",
        3 => b"not a phase or letter, at offset",
        4 => b"no such gate; list record (zero outside a list):",
        5 => b"qubit out of range; the qubit (in a list, the record):",
        6 => b"the two qubits are the same; the qubit (in a list, the record):",
        7 => b"the destination is too short",
        8 => b"not an ASCII byte, at offset",
        9 => b"not a known letter, at offset",
        10 => b"a letter without an index, at offset",
        11 => b"the index is not a number in range, at offset",
        12 => b"named more than once, qubit",
        13 => b"the qubit of a letter is too high, at offset",
        16 => b"the list has a wrong length",
        17 => b"wrong head or fixed zero, list record",
        18 => b"the next index is outside the list, list record",
        19 => b"the chain does not end; it comes back to list record",
        24 => b"a row weight is false, at offset",
        _ => b"unknown",
    }
}

// Whether the detail of a number has a meaning. By numbers, as `sentence`: any number has a line.
#[tactic(auto, using(std::proofs::lemmas::Bool::Decides::nat_tests), unfolding(refusal_wording::specs::RefusalLines::has_detail))]
fn has_detail(number: u64) -> bool
    ensures { result ≡ has_detail number }
{
    matches!(number, 3..=6 | 8..=15 | 17..=19 | 24)
}

// Whether a number has the wording of `PauliWidthError`; any number is asked.
fn is_width_error(number: u64) -> bool
    ensures { result ≡ is_width_error number }
{
    matches!(number, 14 | 15)
}

// A refusal's number and detail, and the width that 14 and 15 look at.
#[derive(Clone, Copy)]
struct Line {
    number: u64,
    detail: u64,
    width: u64,
}

impl Line {
    // A space and the detail, where it has a meaning.
    fn put_detail(self, writer: &mut TextWriter<'_>)
        ensures { Put (detail_text self.number self.detail) writer.old writer.new }
    {
        if has_detail(self.number) {
            writer.put_text(b" ");
            writer.put_decimal(self.detail);
        }
    }

    // The wording of 14 and 15.
    fn put_width_error(self, writer: &mut TextWriter<'_>)
        ensures { Put (width_error_text self.detail self.width) writer.old writer.new }
    {
        writer.put_text(b"qubit ");
        writer.put_decimal(self.detail);
        writer.put_text(b" is outside num_qubits ");
        writer.put_decimal(self.width);
        writer.put_text(b"; pass a width greater than the maximum qubit index (max qubit + 1)");
    }

    // What follows the number.
    fn put_wording(self, writer: &mut TextWriter<'_>)
        ensures { Put (wording self.number self.detail self.width) writer.old writer.new }
    {
        if is_width_error(self.number) {
            return self.put_width_error(writer);
        }
        writer.put_text(sentence(self.number));
        self.put_detail(writer);
    }

    // The whole line; the answer is its length.
    fn write(self, dst: &mut [u8]) -> usize
        ensures { TextWritten (refusal_line self.number self.detail self.width) dst.old dst.new result }
    {
        let mut writer = TextWriter::new(dst);
        writer.put_decimal(self.number);
        writer.put_text(b": ");
        self.put_wording(&mut writer);
        writer.place()
    }
}

// Writes the line of a refusal's number and detail, without a newline; the answer is its length. Any three numbers have a line: a
// number without a meaning is unknown. The width is looked at for 14 and 15 alone: that of the tableau that was called with.
pub fn refusal_line(number: u64, detail: u64, width: u64, dst: &mut [u8]) -> Result<usize, Refusal>
    ensures { LineWritten number detail width dst.old dst.new result }
{
    let line = Line {
        number,
        detail,
        width,
    };
    // A refusal writes nothing, so the length is found first.
    check_room(line.write(&mut []), dst.len())?;
    Ok(line.write(dst))
}
