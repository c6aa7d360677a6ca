// What C and other languages call: each function of the library by a name of its own. An answer is two numbers, 0 and the value or
// the refusal's number and its detail. The one thing trusted: pointers are valid for their lengths, and a destination overlaps no
// other buffer.
#![tactic(auto)]

ghost use Rattle.pauli.specs.Answers.{no_value, number_value, one_or_zero, letter_value, gate_value};
ghost use Rattle.pauli.specs.Promises.{PhasesMultiplied, PhaseConjugated, PhaseIsReal, LettersMultiplied, PhaseOfString, LetterOfString, PlacesCounted, StringsMultiplied, FromEntries, FromSparseText, FromDenseText, FromText, SparseTextWritten};
ghost use Rattle.clifford.specs.Promises.{IdentityWritten, ImageAt, ImageSet, Applied, Composed, Extended, Inverted, ValidityTold, SupportWritten, FromPauliString, Displayed, SingleQubitCliffordWritten, GateWritten, OneQubitGateWritten, GatesComposed, GateInverted, GateNamed};
ghost use Rattle.clifford_group.specs.Conjugation.{of_x, of_z};
ghost use Rattle.preview.specs.Promises.{Previewed};
ghost use Rattle.gate_play.specs.Promises.{Played};
ghost use Rattle.gate_list.specs.Promises.{ListRun, Reported};
ghost use Rattle.refusal_lines.specs.Promises.{LineWritten};
ghost use Rattle.renetcleat.specs.Replies.{Replied};

use clifford::clifford_rep::{X, Z};
use clifford::{clifford as gates, clifford_rep};
use gate_list::gate_list as lists;
use pauli::refusal::Reply;
use pauli::{algebra, pauli_string, quarter_phase};

// ---- phases and letters

#[unsafe(no_mangle)]
pub extern "C" fn rc_phase_product(a: u8, b: u8) -> Reply
    ensures { Replied number_value (PhasesMultiplied a b) result }
{
    Reply::from(quarter_phase::multiply(a, b))
}

#[unsafe(no_mangle)]
pub extern "C" fn rc_phase_conjugate(phase: u8) -> Reply
    ensures { Replied number_value (PhaseConjugated phase) result }
{
    Reply::from(quarter_phase::conjugate(phase))
}

#[unsafe(no_mangle)]
pub extern "C" fn rc_phase_is_real(phase: u8) -> Reply
    ensures { Replied one_or_zero (PhaseIsReal phase) result }
{
    Reply::from(quarter_phase::is_real(phase))
}

#[unsafe(no_mangle)]
pub extern "C" fn rc_letter_product(a: u8, b: u8) -> Reply
    ensures { Replied letter_value (LettersMultiplied a b) result }
{
    Reply::from(algebra::letter_product(a, b))
}

// ---- strings

#[unsafe(no_mangle)]
pub extern "C" fn rc_phase(s: &[u8]) -> Reply
    ensures { Replied number_value (PhaseOfString s.now) result }
{
    Reply::from(pauli_string::phase(s))
}

#[unsafe(no_mangle)]
pub extern "C" fn rc_get(s: &[u8], qubit: usize) -> Reply
    ensures { Replied number_value (LetterOfString s.now qubit) result }
{
    Reply::from(pauli_string::get(s, qubit))
}

#[unsafe(no_mangle)]
pub extern "C" fn rc_anticommuting_places(s: &[u8], t: &[u8]) -> Reply
    ensures { Replied number_value (PlacesCounted s.now t.now) result }
{
    Reply::from(pauli_string::anticommuting_places(s, t))
}

#[unsafe(no_mangle)]
pub extern "C" fn rc_mul(s: &[u8], t: &[u8], dst: &mut [u8]) -> Reply
    ensures { Replied number_value (StringsMultiplied s.now t.now dst.old dst.new) result }
{
    Reply::from(algebra::mul(s, t, dst))
}

#[unsafe(no_mangle)]
pub extern "C" fn rc_with_phase_and_paulis(phase: u8, entries: &[u8], dst: &mut [u8]) -> Reply
    ensures { Replied no_value (FromEntries phase entries.now dst.old dst.new) result }
{
    Reply::from(pauli_string::with_phase_and_paulis(phase, entries, dst))
}

#[unsafe(no_mangle)]
pub extern "C" fn rc_from_sparse_str(text: &[u8], dst: &mut [u8]) -> Reply
    ensures { Replied no_value (FromSparseText text.now dst.old dst.new) result }
{
    Reply::from(pauli_string::from_sparse_str(text, dst))
}

#[unsafe(no_mangle)]
pub extern "C" fn rc_from_dense_str(text: &[u8], dst: &mut [u8]) -> Reply
    ensures { Replied no_value (FromDenseText text.now dst.old dst.new) result }
{
    Reply::from(pauli_string::from_dense_str(text, dst))
}

#[unsafe(no_mangle)]
pub extern "C" fn rc_from_str(text: &[u8], dst: &mut [u8]) -> Reply
    ensures { Replied no_value (FromText text.now dst.old dst.new) result }
{
    Reply::from(pauli_string::from_str(text, dst))
}

#[unsafe(no_mangle)]
pub extern "C" fn rc_to_sparse_str(s: &[u8], dst: &mut [u8]) -> Reply
    ensures { Replied number_value (SparseTextWritten s.now dst.old dst.new) result }
{
    Reply::from(pauli_string::to_sparse_str(s, dst))
}

// ---- tableaux

#[unsafe(no_mangle)]
pub extern "C" fn rc_identity(n: usize, dst: &mut [u8]) -> Reply
    ensures { Replied no_value (IdentityWritten n dst.old dst.new) result }
{
    Reply::from(clifford_rep::identity(n, dst))
}

#[unsafe(no_mangle)]
pub extern "C" fn rc_x_image(t: &[u8], slot: usize) -> Reply
    ensures { Replied number_value (ImageAt of_x t.now slot) result }
{
    Reply::from(clifford_rep::image_offset::<X>(t, slot))
}

#[unsafe(no_mangle)]
pub extern "C" fn rc_z_image(t: &[u8], slot: usize) -> Reply
    ensures { Replied number_value (ImageAt of_z t.now slot) result }
{
    Reply::from(clifford_rep::image_offset::<Z>(t, slot))
}

#[unsafe(no_mangle)]
pub extern "C" fn rc_set_x_image(t: &mut [u8], slot: usize, s: &[u8]) -> Reply
    ensures { Replied no_value (ImageSet of_x slot s.now t.old t.new) result }
{
    Reply::from(clifford_rep::set_image::<X>(t, slot, s))
}

#[unsafe(no_mangle)]
pub extern "C" fn rc_set_z_image(t: &mut [u8], slot: usize, s: &[u8]) -> Reply
    ensures { Replied no_value (ImageSet of_z slot s.now t.old t.new) result }
{
    Reply::from(clifford_rep::set_image::<Z>(t, slot, s))
}

#[unsafe(no_mangle)]
pub extern "C" fn rc_apply(t: &[u8], s: &[u8], dst: &mut [u8]) -> Reply
    ensures { Replied no_value (Applied t.now s.now dst.old dst.new) result }
{
    Reply::from(clifford_rep::apply(t, s, dst))
}

#[unsafe(no_mangle)]
pub extern "C" fn rc_compose(a: &[u8], b: &[u8], dst: &mut [u8]) -> Reply
    ensures { Replied no_value (Composed a.now b.now dst.old dst.new) result }
{
    Reply::from(clifford_rep::compose(a, b, dst))
}

#[unsafe(no_mangle)]
pub extern "C" fn rc_composed_x_image(a: &[u8], b: &[u8], qubit: usize, dst: &mut [u8]) -> Reply
    ensures { Replied no_value (Previewed of_x a.now b.now qubit dst.old dst.new) result }
{
    Reply::from(preview::composed_image::<X>(a, b, qubit, dst))
}

#[unsafe(no_mangle)]
pub extern "C" fn rc_composed_z_image(a: &[u8], b: &[u8], qubit: usize, dst: &mut [u8]) -> Reply
    ensures { Replied no_value (Previewed of_z a.now b.now qubit dst.old dst.new) result }
{
    Reply::from(preview::composed_image::<Z>(a, b, qubit, dst))
}

#[unsafe(no_mangle)]
pub extern "C" fn rc_extended_to(t: &[u8], n: usize, dst: &mut [u8]) -> Reply
    ensures { Replied no_value (Extended t.now n dst.old dst.new) result }
{
    Reply::from(clifford_rep::extended_to(t, n, dst))
}

#[unsafe(no_mangle)]
pub extern "C" fn rc_inverse(t: &[u8], dst: &mut [u8]) -> Reply
    ensures { Replied no_value (Inverted t.now dst.old dst.new) result }
{
    Reply::from(clifford_rep::inverse(t, dst))
}

#[unsafe(no_mangle)]
pub extern "C" fn rc_is_valid(t: &[u8]) -> Reply
    ensures { Replied one_or_zero (ValidityTold t.now) result }
{
    Reply::from(clifford_rep::is_valid(t))
}

#[unsafe(no_mangle)]
pub extern "C" fn rc_support_qubits(t: &[u8], dst: &mut [u8]) -> Reply
    ensures { Replied number_value (SupportWritten t.now dst.old dst.new) result }
{
    Reply::from(clifford_rep::support_qubits(t, dst))
}

#[unsafe(no_mangle)]
pub extern "C" fn rc_from_pauli_string(s: &[u8], dst: &mut [u8]) -> Reply
    ensures { Replied no_value (FromPauliString s.now dst.old dst.new) result }
{
    Reply::from(clifford_rep::from_pauli_string(s, dst))
}

#[unsafe(no_mangle)]
pub extern "C" fn rc_display(t: &[u8], dst: &mut [u8]) -> Reply
    ensures { Replied number_value (Displayed t.now dst.old dst.new) result }
{
    Reply::from(clifford_rep::display(t, dst))
}

// ---- gates

#[unsafe(no_mangle)]
pub extern "C" fn rc_single_qubit_clifford(index: usize, qubit: usize, dst: &mut [u8]) -> Reply
    ensures { Replied no_value (SingleQubitCliffordWritten index qubit dst.old dst.new) result }
{
    Reply::from(gates::single_qubit_clifford(index, qubit, dst))
}

#[unsafe(no_mangle)]
pub extern "C" fn rc_on_qubits(gate: u8, q0: usize, q1: usize, dst: &mut [u8]) -> Reply
    ensures { Replied no_value (GateWritten gate q0 q1 dst.old dst.new) result }
{
    Reply::from(gates::on_qubits(gate, q0, q1, dst))
}

#[unsafe(no_mangle)]
pub extern "C" fn rc_on_qubit(gate: u8, q: usize, dst: &mut [u8]) -> Reply
    ensures { Replied no_value (OneQubitGateWritten gate q dst.old dst.new) result }
{
    Reply::from(gates::on_qubit(gate, q, dst))
}

#[unsafe(no_mangle)]
pub extern "C" fn rc_gate_compose(g: u8, h: u8) -> Reply
    ensures { Replied number_value (GatesComposed g h) result }
{
    Reply::from(gates::compose(g, h))
}

#[unsafe(no_mangle)]
pub extern "C" fn rc_gate_inverse(g: u8) -> Reply
    ensures { Replied number_value (GateInverted g) result }
{
    Reply::from(gates::inverse(g))
}

#[unsafe(no_mangle)]
pub extern "C" fn rc_from_clifford_rep(t: &[u8]) -> Reply
    ensures { Replied gate_value (GateNamed t.now) result }
{
    Reply::from(gates::from_clifford_rep(t))
}

#[unsafe(no_mangle)]
pub extern "C" fn rc_play(t: &mut [u8], gate: u8, q0: usize, q1: usize) -> Reply
    ensures { Replied no_value (Played gate q0 q1 t.old t.new) result }
{
    Reply::from(gate_play::play(t, gate, q0, q1))
}

// ---- lists

#[unsafe(no_mangle)]
pub extern "C" fn rc_run(list: &[u8], dst: &mut [u8]) -> Reply
    ensures { Replied number_value (ListRun list.now dst.old dst.new) result }
{
    Reply::from(lists::run(list, dst))
}

#[unsafe(no_mangle)]
pub extern "C" fn rc_report(list: &[u8], out: &mut [u8]) -> Reply
    ensures { Replied number_value (Reported list.now out.old out.new) result }
{
    Reply::from(lists::report(list, out))
}

// ---- refusals, for people

#[unsafe(no_mangle)]
pub extern "C" fn rc_refusal_line(number: u64, detail: u64, width: u64, dst: &mut [u8]) -> Reply
    ensures { Replied number_value (LineWritten number detail width dst.old dst.new) result }
{
    Reply::from(refusal_lines::refusal_line(number, detail, width, dst))
}
