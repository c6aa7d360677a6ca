// Tableaux written row by row: each row is made in the part of the destination that starts at its offset.
ghost use Rattle.std.specs.Prelude.{◌≡◌, max, ℕ, Ok};
ghost use Rattle.clifford_group.specs.Tableau.{Tableau, widen, compose, inverse};
ghost use Rattle.clifford_gates.specs.GateNumbers.{gate_tableau};
ghost use Rattle.pauli.specs.Answers.{written};
ghost use Rattle.pauli.specs.Layout.{encode_string, string_of};
ghost use Rattle.clifford.specs.Layout.{row_of, tableau_of, tableau_record, width_of};
ghost use Rattle.clifford.specs.Images.{pauli_tableau};
ghost use Rattle.clifford.specs.Inside.Rows.{row_written};
ghost use Rattle.clifford.specs.Inside.Made.{Made, MakesRow, WritesRow, WritesAll, TableauWritten, Widens, Spans, GateInside};

use crate::applying::{apply_letter, apply_string};
use crate::gates::put_image;
use crate::inverting::InverseRow;
use crate::layout::{RowPlace, record_length, row_offset, write_row};
use crate::numbering::PlacedGate;
use crate::pauli_tableau::pauli_row;
use crate::tableau::TableauRecord;
use pauli::STRING_LENGTH;
use pauli::questions::check_room;
use pauli::refusal::Refusal;

// A tableau that is made row by row.
pub(crate) trait RowMaker {
    ghost wide: { Self → ℕ };

    ghost made: { Self → Tableau };

    // A trait has no fields, so each maker hands out its width by a method of its own.
    fn width(&self) -> usize
        ensures { result ≡ wide self.now };

    // One row of it, as a work row; source is room for one row more on the way there. No struct holds the two: each maker lends one of them
    // as what is read, and the other as what is written.
    fn make_row(&self, row: RowPlace, source: &mut [u8], work: &mut [u8])
        requires { MakesRow (wide self.now) row.width source.old work.old }
        ensures { work.new ≡ encode_string (wide self.now) (row_of (made self.now) row.r) };
}

// The tableau t, widened.
#[derive(Clone, Copy)]
pub(crate) struct Widened<'a> {
    pub(crate) t: TableauRecord<'a>,
    pub(crate) width: usize,
    ghost widens: { Widens t.bytes.now width },
}

impl<'a> RowMaker for Widened<'a> {
    ghost wide = { λ m. m.width };

    ghost made = { λ m. widen m.width (tableau_of m.t.bytes.now) };

    fn width(&self) -> usize {
        self.width
    }

    #[tactic(auto, using(crate::proofs::Made::made_rows))]
    fn make_row(&self, row: RowPlace, _source: &mut [u8], work: &mut [u8]) {
        apply_letter(&self.t, row, work);
    }
}

// a composed with b: b acts first.
#[derive(Clone, Copy)]
pub(crate) struct Composite<'a> {
    pub(crate) a: TableauRecord<'a>,
    pub(crate) b: TableauRecord<'a>,
    pub(crate) width: usize,
    ghost wider: { width ≡ max (width_of a.bytes.now) (width_of b.bytes.now) },
}

impl<'a> RowMaker for Composite<'a> {
    ghost wide = { λ m. m.width };

    ghost made = { λ m. compose (tableau_of m.a.bytes.now) (tableau_of m.b.bytes.now) };

    fn width(&self) -> usize {
        self.width
    }

    #[tactic(auto, using(crate::proofs::Made::made_rows))]
    fn make_row(&self, row: RowPlace, source: &mut [u8], work: &mut [u8]) {
        apply_letter(&self.b, row, source);
        apply_string(&self.a, source, work);
    }
}

// The inverse of the tableau t.
#[derive(Clone, Copy)]
pub(crate) struct Inverse<'a> {
    pub(crate) t: TableauRecord<'a>,
}

impl<'a> RowMaker for Inverse<'a> {
    ghost wide = { λ m. width_of m.t.bytes.now };

    ghost made = { λ m. inverse (tableau_of m.t.bytes.now) };

    fn width(&self) -> usize {
        self.t.width()
    }

    fn make_row(&self, row: RowPlace, source: &mut [u8], work: &mut [u8]) {
        let inverse = InverseRow { t: self.t, row };
        inverse.write(source, work);
    }
}

// The tableau of the string s.
#[derive(Clone, Copy)]
pub(crate) struct OfPauli<'a> {
    pub(crate) s: &'a [u8],
    pub(crate) width: usize,
    ghost spans: { Spans s.now width },
}

impl<'a> RowMaker for OfPauli<'a> {
    ghost wide = { λ m. m.width };

    ghost made = { λ m. pauli_tableau (string_of m.s.now) };

    fn width(&self) -> usize {
        self.width
    }

    #[tactic(auto, using(crate::proofs::Made::made_rows))]
    fn make_row(&self, row: RowPlace, _source: &mut [u8], work: &mut [u8]) {
        pauli_row(self.s, row, work);
    }
}

// The tableau of a gate, widened.
#[derive(Clone, Copy)]
pub(crate) struct OfGate {
    pub(crate) gate: PlacedGate,
    pub(crate) width: usize,
    ghost inside: { GateInside gate.number gate.first gate.second width },
}

impl RowMaker for OfGate {
    ghost wide = { λ m. m.width };

    ghost made = { λ m. widen m.width (gate_tableau m.gate.number m.gate.first m.gate.second) };

    fn width(&self) -> usize {
        self.width
    }

    #[tactic(auto, using(crate::proofs::Made::made_rows))]
    fn make_row(&self, row: RowPlace, _source: &mut [u8], work: &mut [u8]) {
        put_image(self.gate.image(row), work);
    }
}

// The apply routine for rows: the generator of a row sent through what is made, as the row at the front of dst.
#[tactic(auto, using(crate::proofs::Made::written_rows))]
fn apply_to_row<M: RowMaker>(maker: &M, row: RowPlace, dst: &mut [u8])
    requires { WritesRow (M.wide maker.now) (M.made maker.now) row.width dst.old }
    ensures { dst.new ≡ row_written (M.wide maker.now) (row_of (M.made maker.now) row.r) dst.old }
{
    let mut source = [0u8; STRING_LENGTH];
    let mut work = [0u8; STRING_LENGTH];
    let end = maker.width() + 1;
    let work = &mut work[0..end];
    maker.make_row(row, &mut source[0..end], work);
    write_row(work, dst);
}

// All rows, each in the part of dst that starts at its own offset, which is a fixed form of the scope document.
#[tactic(auto, using(crate::proofs::Made::all_rows))]
fn write_rows<M: RowMaker>(maker: &M, dst: &mut [u8])
    requires { WritesAll (M.wide maker.now) (M.made maker.now) dst.old }
    ensures { dst.new ≡ written (Ok tt) (tableau_record (M.made maker.now)) dst.old }
{
    let width = maker.width();
    // A width is at most 128: by TryFrom there would be a failure to answer, which never comes.
    dst[0] = width as u8;
    for r in 0..2 * width {
        let at = row_offset(width, r);
        apply_to_row(maker, RowPlace { width, r }, &mut dst[at..]);
    }
}

// The record of the tableau, where there is room for it.
pub(crate) fn write_made<M: RowMaker>(maker: &M, dst: &mut [u8]) -> Result<(), Refusal>
    requires { Made (M.wide maker.now) (M.made maker.now) }
    ensures { TableauWritten (M.wide maker.now) (M.made maker.now) dst.old dst.new result }
{
    check_room(record_length(maker.width()), dst.len())?;
    write_rows(maker, dst);
    Ok(())
}
