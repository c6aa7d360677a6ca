// The questions on entry that are put to tableaux and to gates. Each lets by, or answers the refusal.
ghost use Rattle.std.specs.Prelude.{◌≡◌, ◌*◌, min};
ghost use Rattle.pauli.specs.Questions.{◌and_then◌};
ghost use Rattle.clifford.specs.Layout.{record_length, width_of};
ghost use Rattle.clifford.specs.Inside.Rows.{Laid};
ghost use Rattle.clifford.specs.Questions.{width_question, slot_question, rows_question, weights_question, tableau_questions, compose_questions};
ghost use Rattle.clifford.specs.GateQuestions.{gate_question, different_question};

use crate::layout::{check_row, check_weights, record_length, width};
use pauli::QUBITS;
use pauli::refusal::Refusal;

#[tactic(auto, using(pauli::proofs::Asking::by_tests), unfolding(crate::specs::Questions::width_question, pauli_group::specs::PauliString::qubits))]
pub fn check_width(width: usize) -> Result<(), Refusal>
    ensures { result ≡ width_question width }
{
    if QUBITS < width {
        return Err(Refusal::Width);
    }
    Ok(())
}

// The bytes of a tableau record of this width; a width above 128 has no record and is taken as 128.
pub fn record_size(width: usize) -> usize
    ensures { result ≡ record_length (min width 128) }
{
    record_length(width.min(QUBITS))
}

// A qubit of a tableau whose image is meant.
#[tactic(auto, using(pauli::proofs::Asking::by_tests), unfolding(crate::specs::Questions::slot_question))]
pub fn check_slot(slot: usize, width: usize) -> Result<(), Refusal>
    ensures { result ≡ slot_question slot width }
{
    if slot < width {
        return Ok(());
    }
    Err(Refusal::Slot { slot, width })
}

// Questions 3 and 24, in one pass over the rows: every 3 comes before a 24.
#[tactic(auto, using(crate::proofs::Asking::asked_rows))]
fn check_rows(t: &[u8]) -> Result<(), Refusal>
    requires { Laid t.now }
    ensures { result ≡ rows_question (2 * width_of t.now) t.now and_then weights_question t.now }
{
    let rows = 2 * width(t);
    let mut first = None;
    for r in 0..rows {
        if !check_row(t, r)? {
            first = first.or(Some(r));
        }
    }
    check_weights(t, first)
}

// A tableau record.
#[tactic(auto, using(crate::proofs::Asking::asked_tableaux))]
pub fn check_tableau(t: &[u8]) -> Result<(), Refusal>
    ensures { result ≡ tableau_questions t.now }
{
    if t.is_empty() {
        return Err(Refusal::Length);
    }
    let n = width(t);
    check_width(n)?;
    if t.len() != record_length(n) {
        return Err(Refusal::Length);
    }
    check_rows(t)
}

// Two tableau records, the first one first.
#[tactic(auto, using(pauli::proofs::Asking::by_questions), unfolding(crate::specs::Questions::compose_questions))]
pub fn check_tableaux(a: &[u8], b: &[u8]) -> Result<(), Refusal>
    ensures { result ≡ compose_questions a.now b.now }
{
    check_tableau(a)?;
    check_tableau(b)
}

// A gate, or an index of the 24 products, below the limit. A number and no `Gate`: any number comes in from C before this is asked.
#[tactic(auto, using(pauli::proofs::Asking::by_tests), unfolding(crate::specs::GateQuestions::gate_question))]
pub fn check_gate(limit: usize, gate: usize) -> Result<(), Refusal>
    ensures { result ≡ gate_question limit gate }
{
    if gate < limit {
        return Ok(());
    }
    Err(Refusal::Gate)
}

// Two qubits of a gate.
#[tactic(auto, using(pauli::proofs::Asking::by_tests), unfolding(crate::specs::GateQuestions::different_question))]
pub fn check_different(q: usize, r: usize) -> Result<(), Refusal>
    ensures { result ≡ different_question q r }
{
    if q == r {
        return Err(Refusal::SameQubit { qubit: q });
    }
    Ok(())
}
