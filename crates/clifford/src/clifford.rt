// Gates by number: their tableaux, their names, their products and inverses. Ports clifford.rs of PECOS, changed:
// Copyright 2026 The PECOS Developers, Apache License, Version 2.0.
ghost use Rattle.std.specs.Prelude.{◌≡◌, suc, ◌<◌};
ghost use Rattle.clifford_group.specs.Tableau.{widen};
ghost use Rattle.clifford_gates.specs.GateTableaux.{on_qubit};
ghost use Rattle.clifford_gates.specs.GateNumbers.{one_qubit_gate, gate_tableau, compose_gate};
ghost use Rattle.clifford.specs.GateQuestions.{own_qubit_question, qubits_questions};
ghost use Rattle.clifford.specs.GateAnswers.{named, record_name};
ghost use Rattle.clifford.specs.Inside.Made.{GateInside, TableauWritten};
ghost use Rattle.clifford.specs.Promises.{GateWritten, WidthGateWritten, OneQubitGateWritten, SingleQubitCliffordWritten, GateNamed, GatesComposed, GateInverted};

use crate::gates::{first_gate, inverse_number, product_number};
use crate::layout::{letter_at, phase_at};
use crate::numbering::{OneQubitGate, PlacedGate};
use crate::questions::{check_different, check_gate, check_tableau, check_width};
use crate::tableau::TableauRecord;
use crate::writing::{OfGate, write_made};
use pauli::QUBITS;
use pauli::questions::check_qubit;
use pauli::refusal::Refusal;

// ---- questions

// A qubit of a gate on a tableau of this width. At width 128 it is pauli's `check_qubit`, which promises its callers a question that
// names no width.
#[tactic(auto, using(pauli::proofs::Asking::by_tests), unfolding(crate::specs::GateQuestions::own_qubit_question))]
fn check_own_qubit(width: usize, qubit: usize) -> Result<(), Refusal>
    ensures { result ≡ own_qubit_question width qubit }
{
    if qubit < width {
        return Ok(());
    }
    Err(Refusal::Qubit { qubit })
}

// The qubits of a gate, of any number, so before there is a `PlacedGate`; the second is not looked at for gates 0 to 23.
#[tactic(auto, using(pauli::proofs::Asking::by_questions), unfolding(crate::specs::GateQuestions::qubits_questions))]
pub fn check_qubits(width: usize, gate: usize, q: usize, r: usize) -> Result<(), Refusal>
    ensures { result ≡ qubits_questions width gate q r }
{
    check_own_qubit(width, q)?;
    if gate < 24 {
        return Ok(());
    }
    check_own_qubit(width, r)?;
    check_different(q, r)
}

// ---- tableaux of gates

// The record of a gate on its qubits, at this width.
#[tactic(auto, using(crate::proofs::Made::gate_made))]
fn write_gate(gate: PlacedGate, width: usize, dst: &mut [u8]) -> Result<(), Refusal>
    requires { GateInside gate.number gate.first gate.second width }
    ensures { TableauWritten width (widen width (gate_tableau gate.number gate.first gate.second)) dst.old dst.new result }
{
    write_made(&OfGate { gate, width }, dst)
}

// The record of a one-qubit gate on its qubit, at its own width. By number: a `PlacedGate` is made of it, which holds one.
#[tactic(auto, using(crate::proofs::GateAnswers::one_qubit_writes))]
fn write_on_qubit(number: usize, qubit: usize, dst: &mut [u8]) -> Result<(), Refusal>
    requires small { number < 24 }
    requires below { qubit < 128 }
    ensures { TableauWritten (suc qubit) (on_qubit (one_qubit_gate number) qubit) dst.old dst.new result }
{
    let placed = PlacedGate {
        number,
        first: qubit,
        second: qubit,
    };
    write_gate(placed, placed.width(), dst)
}

// A gate on its qubits; the second is not looked at for gates 0 to 23.
#[tactic(auto, using(pauli::proofs::Asking::by_questions, crate::proofs::GateAsking::gate_answers), unfolding(crate::specs::GateQuestions::on_qubits_answer, crate::specs::GateQuestions::on_qubits_questions, pauli_group::specs::PauliString::qubits))]
pub fn on_qubits(gate: u8, q0: usize, q1: usize, dst: &mut [u8]) -> Result<(), Refusal>
    ensures { GateWritten gate q0 q1 dst.old dst.new result }
{
    let g = usize::from(gate);
    check_gate(38, g)?;
    check_qubits(QUBITS, g, q0, q1)?;
    let placed = PlacedGate {
        number: g,
        first: q0,
        second: q1,
    };
    write_gate(placed, placed.width(), dst)
}

// A gate on its qubits, at the width n; the second is not looked at for gates 0 to 23. Not one function with `on_qubits`, which asks no
// width and writes the gate's own: of an Option of a width the questions and the width that is written would each have to ask.
#[tactic(auto, using(pauli::proofs::Asking::by_questions, crate::proofs::GateAsking::width_answers), unfolding(crate::specs::GateQuestions::on_width_answer, crate::specs::GateQuestions::on_width_questions))]
pub fn on_width(n: usize, gate: u8, q0: usize, q1: usize, dst: &mut [u8]) -> Result<(), Refusal>
    ensures { WidthGateWritten n gate q0 q1 dst.old dst.new result }
{
    let g = usize::from(gate);
    check_width(n)?;
    check_gate(38, g)?;
    check_qubits(n, g, q0, q1)?;
    let placed = PlacedGate {
        number: g,
        first: q0,
        second: q1,
    };
    write_gate(placed, n, dst)
}

// A one-qubit gate on its qubit.
#[tactic(auto, using(pauli::proofs::Asking::by_questions, crate::proofs::GateAnswers::one_qubit_answers), unfolding(crate::specs::GateQuestions::on_qubit_answer, crate::specs::GateQuestions::on_qubit_questions))]
pub fn on_qubit(gate: u8, q: usize, dst: &mut [u8]) -> Result<(), Refusal>
    ensures { OneQubitGateWritten gate q dst.old dst.new result }
{
    let g = usize::from(gate);
    check_gate(24, g)?;
    check_qubit(q)?;
    write_on_qubit(g, q, dst)
}

// One of the 24 products of H and SZ, by its index.
#[tactic(auto, using(pauli::proofs::Asking::by_questions, crate::proofs::GateAnswers::one_qubit_answers), unfolding(crate::specs::GateQuestions::on_qubit_answer, crate::specs::GateQuestions::on_qubit_questions))]
pub fn single_qubit_clifford(index: usize, qubit: usize, dst: &mut [u8]) -> Result<(), Refusal>
    ensures { SingleQubitCliffordWritten index qubit dst.old dst.new result }
{
    check_gate(24, index)?;
    check_qubit(qubit)?;
    write_on_qubit(product_number(index), qubit, dst)
}

// ---- names

// The number of the gate that a tableau is.
#[tactic(auto, using(crate::proofs::GateNaming::record_names))]
fn name_of(t: &TableauRecord) -> Option<u8>
    ensures { result ≡ named (record_name t.now.bytes.now) }
{
    if t.width() != 1 {
        return None;
    }
    first_gate([
        phase_at(t.bytes, 0),
        letter_at(t.bytes, 0, 0),
        phase_at(t.bytes, 1),
        letter_at(t.bytes, 1, 0),
    ])
}

// The first of the 24 gates, by number, whose tableau on qubit 0 this is. None, unless it has width 1 and is valid.
#[tactic(auto, using(pauli::proofs::Asking::by_questions, crate::proofs::GateAnswers::name_answers), unfolding(pauli::specs::Answers::answer_to, pauli::specs::Answers::reply_of, pauli::specs::Answers::reply_to))]
pub fn from_clifford_rep(t: &[u8]) -> Result<Option<u8>, Refusal>
    ensures { GateNamed t.now result }
{
    check_tableau(t)?;
    Ok(name_of(&TableauRecord { bytes: t }))
}

// ---- products and inverses by number

// The number of the gate that g after h is.
#[tactic(auto, using(crate::proofs::GateNaming::composed_names))]
fn composed(g: OneQubitGate, h: OneQubitGate) -> u8
    ensures { result ≡ compose_gate g.number h.number }
{
    let x = g.sent_image(h.letter_image(1));
    let z = g.sent_image(h.letter_image(2));
    first_gate([x.0, x.1, z.0, z.1]).unwrap()
}

// g composed with h: h acts first.
#[tactic(auto, using(pauli::proofs::Asking::by_questions), unfolding(crate::specs::GateQuestions::compose_gate_questions, pauli::specs::Answers::answer_to, pauli::specs::Answers::reply_of, pauli::specs::Answers::reply_to))]
pub fn compose(g: u8, h: u8) -> Result<u8, Refusal>
    ensures { GatesComposed g h result }
{
    let first = usize::from(g);
    let second = usize::from(h);
    check_gate(24, first)?;
    check_gate(24, second)?;
    Ok(composed(
        OneQubitGate { number: first },
        OneQubitGate { number: second },
    ))
}

// The inverse of a gate.
#[tactic(auto, using(pauli::proofs::Asking::by_questions, crate::proofs::GateAnswers::gate_numbers), unfolding(pauli::specs::Answers::answer_to, pauli::specs::Answers::reply_of, pauli::specs::Answers::reply_to))]
pub fn inverse(g: u8) -> Result<u8, Refusal>
    ensures { GateInverted g result }
{
    let gate = usize::from(g);
    check_gate(38, gate)?;
    Ok(inverse_number(gate))
}
