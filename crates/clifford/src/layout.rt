// Tableau records: where their rows are, and how one row is read and written. Only here does the library's code know the bytes of a row.
ghost use Rattle.std.specs.Prelude.{◌≡◌, ◌↔◌, ◌+◌, ◌*◌, ◌<◌, ◌≤◌, IsTrue, min, length, slice_index};
ghost use Rattle.pauli.specs.Layout.{phase_byte, letter_byte};
ghost use Rattle.clifford.specs.Playing.{letter_table_on_row, pair_table_on_row};
ghost use Rattle.clifford.specs.Layout.{width_of, record_length, row_offset, row_of, row_part, read_row, tableau_of, row_qubit, row_letter};
ghost use Rattle.clifford.specs.Questions.{row_question, weights_question};
ghost use Rattle.clifford.specs.Inside.Rows.{Sized, RowIndex, RowInside, RowAt, row_answer, FirstFalse, WorkRow, Finished, row_times, row_written, row_letters, letters_in, string_in};

use crate::tableau::{Row, TableauRecord};
use pauli::QUBITS;
use pauli::refusal::Refusal;
use pauli::rows::{copy, count_letters, first_bad, multiply_letters, phase_times, scan_letters};

// The width of a record; no bytes are read as width 0.
pub fn width(t: &[u8]) -> usize
    ensures { result ≡ width_of t.now }
{
    t.first().map_or(0, |n| usize::from(*n))
}

// The length of a record of width 128.
pub const LONGEST_RECORD: usize = 33281;

// The length of a record.
#[tactic(auto, using(crate::proofs::RowAccess::row_access))]
pub(crate) fn record_length(width: usize) -> usize
    requires { width ≤ 128 }
    ensures { Sized (record_length width) result }
{
    1 + 2 * width * (width + 2)
}

// Where row r starts.
#[tactic(auto, using(crate::proofs::RowAccess::row_access))]
pub(crate) fn row_offset(width: usize, r: usize) -> usize
    requires { RowIndex width r }
    ensures { Sized (row_offset width r) result }
{
    1 + r * (width + 2)
}

// The row's own part of the record.
#[tactic(auto, using(crate::proofs::RowAccess::row_access))]
pub(crate) fn row(t: &[u8], r: usize) -> &[u8]
    requires { RowInside t.now r }
    ensures { result.now ≡ row_part t.now r }
{
    let n = width(t);
    let at = row_offset(n, r);
    &t[at..at + (n + 2)]
}

// Question 3, put to a row that starts at this offset, the largest of its letters being known.
#[tactic(auto, using(crate::proofs::RowAccess::row_codes))]
fn check_codes(row: &[u8], at: usize, largest: u8) -> Result<(), Refusal>
    requires { RowAt at row.now largest }
    ensures { result ≡ row_question at row.now }
{
    if 3 < row[0] {
        return Err(Refusal::BadByte { offset: at });
    }
    if largest < 4 {
        return Ok(());
    }
    match first_bad(&row[2..]) {
        Some(k) => Err(Refusal::BadByte { offset: at + 2 + k }),
        None => Ok(()),
    }
}

// Question 3, put to row r, and whether its weight is true, in one pass over its letters.
#[tactic(auto, using(pauli::proofs::Asking::by_questions, crate::proofs::RowAccess::row_checks), unfolding(pauli::specs::Answers::answer_to))]
pub(crate) fn check_row(t: &[u8], r: usize) -> Result<bool, Refusal>
    requires { RowInside t.now r }
    ensures { result ≡ row_answer t.now r }
{
    let whole = row(t, r);
    let seen = scan_letters(&whole[2..]);
    check_codes(whole, row_offset(width(t), r), seen.largest)?;
    Ok(whole[1] == seen.letters)
}

// Question 24, where the first row with a false weight is known.
#[tactic(auto, using(crate::proofs::Asking::false_rows))]
pub(crate) fn check_weights(t: &[u8], first: Option<usize>) -> Result<(), Refusal>
    requires { FirstFalse t.now first }
    ensures { result ≡ weights_question t.now }
{
    match first {
        Some(r) => Err(Refusal::FalseWeight {
            offset: row_offset(width(t), r) + 1,
        }),
        None => Ok(()),
    }
}

// The letters of a row.
#[tactic(auto, using(crate::proofs::RowAccess::row_reads))]
pub(crate) fn row_letters<'a>(of: &Row<'a>) -> &'a [u8]
    ensures { result.now ≡ row_letters of.now.bytes.now of.now.r }
{
    let whole = row(of.bytes, of.r);
    &whole[2..]
}

// A work row, multiplied by a row of a record.
#[tactic(auto, using(crate::proofs::RowAccess::row_access))]
pub(crate) fn multiply_by(work: &mut [u8], by: &Row)
    requires { WorkRow by.now.bytes.now work.old }
    ensures { work.new ≡ row_times work.old (row_of (tableau_of by.now.bytes.now) by.now.r) }
{
    let factor = row(by.bytes, by.r);
    let p = phase_times(work[0], factor[0]);
    let phase = multiply_letters(&mut work[1..], &factor[2..], p);
    work[0] = phase;
}

// A finished work row, written with its weight as the row at the front of dst.
#[tactic(auto, using(crate::proofs::RowAccess::row_access))]
pub(crate) fn write_row(work: &[u8], dst: &mut [u8])
    requires { Finished work.now dst.old }
    ensures { dst.new ≡ row_written (letters_in work.now) (string_in work.now) dst.old }
{
    dst[0] = work[0];
    dst[1] = count_letters(&work[1..]);
    copy(&work[1..], &mut dst[2..work.len() + 1]);
}

// The place of row r in a record of this width: X rows come first.
#[derive(Clone, Copy)]
pub(crate) struct RowPlace {
    pub(crate) width: usize,
    pub(crate) r: usize,
    ghost own: { RowIndex width r },
}

// Whether it has the image of X, and of which qubit; the letter is a byte, as letters are in all rows.
impl RowPlace {
    pub(crate) fn is_x(self) -> bool
        ensures { IsTrue result ↔ (self.r < self.width) }
    {
        self.r < self.width
    }

    #[tactic(auto, using(pauli::proofs::Asking::by_tests, pauli::proofs::Asking::by_questions), unfolding(crate::specs::Layout::row_qubit))]
    pub(crate) fn qubit(self) -> usize
        ensures is { result ≡ row_qubit self.width self.r }
        ensures below { result < self.width }
    {
        if self.is_x() {
            self.r
        } else {
            self.r - self.width
        }
    }

    #[tactic(auto, using(pauli::proofs::Asking::by_tests, pauli::proofs::Asking::by_questions), unfolding(crate::specs::Layout::row_letter, pauli::specs::Layout::letter_byte))]
    pub(crate) fn letter(self) -> u8
        ensures is { result ≡ letter_byte (row_letter self.width self.r) }
        ensures some { 0 < result }
        ensures small { result < 3 }
    {
        if self.is_x() { 1 } else { 2 }
    }
}

// The letter of row r at qubit q. No `Row` or `Qubit`: of each the one number would be taken out again.
#[tactic(auto, using(crate::proofs::RowAccess::letter_reads))]
pub(crate) fn letter_in_row(t: &TableauRecord, r: usize, q: usize) -> u8
    requires row { r < 2 * width_of t.now.bytes.now }
    requires qubit { q < width_of t.now.bytes.now }
    ensures { result ≡ letter_byte ((row_of (tableau_of t.now.bytes.now) r).letters q) }
{
    row(t.bytes, r)[q + 2]
}

// The byte at this place of t as it is read: one above 3 as 3, and one that isn't there as 0.
fn read_at(t: &[u8], at: usize) -> u8
    ensures { result ≡ min (slice_index t.now at) 3 }
{
    t.get(at).map_or(0, |x| (*x).min(3))
}

// The phase of row r, whatever the bytes of t: +1 where a record of this width has no such row.
#[tactic(auto, using(crate::proofs::RowAccess::row_reading))]
pub fn phase_at(t: &[u8], r: usize) -> u8
    ensures { result ≡ phase_byte (read_row t.now r).phase }
{
    let n = width(t);
    if QUBITS < n || 2 * n <= r {
        return 0;
    }
    read_at(t, row_offset(n, r))
}

// The letter of row r on qubit q, whatever the bytes of t: I where a record of this width has no such row or qubit.
#[tactic(auto, using(crate::proofs::RowAccess::row_reading))]
pub fn letter_at(t: &[u8], r: usize, q: usize) -> u8
    ensures { result ≡ letter_byte ((read_row t.now r).letters q) }
{
    let n = width(t);
    if QUBITS < n || 2 * n <= r || n <= q {
        return 0;
    }
    read_at(t, row_offset(n, r) + 2 + q)
}

// The row at the front of b, changed on qubit q as the table says. Not one generic function with change_pair: a gate on one qubit leaves
// the weight as it is, so one body for both would have to ask which of the two it is.
#[tactic(auto, using(crate::proofs::RowAccess::row_changes))]
pub(crate) fn change_letter(b: &mut [u8], q: usize, table: &[[u8; 4]; 2])
    requires { q + 2 < length b.old }
    ensures { b.new ≡ letter_table_on_row table.now q b.old }
{
    let k = usize::from(b[q + 2].min(3));
    b[0] = b[0].min(3) ^ table[0][k];
    b[q + 2] = table[1][k];
}

// The row at the front of b, changed on qubits q and r as the table says, with its weight.
#[tactic(auto, using(crate::proofs::RowAccess::row_changes))]
pub(crate) fn change_pair(b: &mut [u8], q: usize, r: usize, table: &[[u8; 16]; 4])
    requires first { q + 2 < length b.old }
    requires second { r + 2 < length b.old }
    ensures { b.new ≡ pair_table_on_row table.now q r b.old }
{
    let k = usize::from(4 * b[q + 2].min(3) + b[r + 2].min(3));
    let phase = b[0].min(3) ^ table[0][k];
    b[1] = b[1].wrapping_add(table[1][k]);
    b[0] = phase;
    b[q + 2] = table[2][k];
    b[r + 2] = table[3][k];
}
