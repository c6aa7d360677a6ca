// The questions put to a list and to its records. Each lets by, or refuses.
ghost use Rattle.std.specs.Prelude.{◌≡◌, ◌<◌};
ghost use Rattle.gate_list.specs.Lists.{byte_of, record_count};
ghost use Rattle.gate_list.specs.ListQuestions.{size_question, head_question, link_question, zeros_question, step_gate_question, step_qubit_question, step_second_questions, record_questions};
ghost use Rattle.gate_list.specs.Inside.Reading.{step_different_question, two_questions, step_qubits_questions};

use crate::reading::{LONGEST_LIST, RECORD_SIZE, Record, record_count, width};
use pauli::refusal::Refusal;

// Gates 0 to 23 are on one qubit, 24 to 37 on two. A byte of a list names a gate by its number, any number, and the gates' types are
// clifford's own, so each test of a gate here is one of its byte.
const ONE_QUBIT_GATES: u8 = 24;

const GATES: u8 = 38;

#[tactic(auto, using(crate::proofs::ListAsking::by_tests), unfolding(crate::specs::ListQuestions::size_question))]
pub(crate) fn check_size(list: &[u8]) -> Result<(), Refusal>
    ensures { result ≡ size_question list.now }
{
    if list.len() % RECORD_SIZE != 0 || list.len() < RECORD_SIZE || LONGEST_LIST < list.len() {
        return Err(Refusal::ListLength);
    }
    Ok(())
}

#[tactic(auto, using(crate::proofs::ListAsking::by_tests), unfolding(crate::specs::ListQuestions::head_question))]
pub(crate) fn check_head(list: &[u8]) -> Result<(), Refusal>
    requires { 0 < record_count list.now }
    ensures { result ≡ head_question list.now }
{
    let head = Record { list, i: 0 };
    if head.gate() != 0 || head.second() != 0 || head.fixed() != 0 {
        return Err(Refusal::ListRecord { record: 0 });
    }
    Ok(())
}

impl<'a> Record<'a> {
    #[tactic(auto, using(crate::proofs::ListAsking::by_tests), unfolding(crate::specs::ListQuestions::link_question))]
    pub(crate) fn check_link(&self) -> Result<(), Refusal>
        ensures { result ≡ link_question self.now.list.now self.now.i }
    {
        if self.next() < record_count(self.list) {
            return Ok(());
        }
        Err(Refusal::Link { record: self.i })
    }

    // Byte 3, and the second qubit of a gate on one qubit.
    #[tactic(auto, using(crate::proofs::ListAsking::by_tests), unfolding(crate::specs::ListQuestions::zeros_question))]
    fn check_zeros(&self) -> Result<(), Refusal>
        ensures { result ≡ zeros_question self.now.list.now self.now.i }
    {
        if self.fixed() != 0 || (self.gate() < ONE_QUBIT_GATES && self.second() != 0) {
            return Err(Refusal::ListRecord { record: self.i });
        }
        Ok(())
    }

    #[tactic(auto, using(crate::proofs::ListAsking::by_tests), unfolding(crate::specs::ListQuestions::step_gate_question))]
    fn check_gate(&self) -> Result<(), Refusal>
        ensures { result ≡ step_gate_question self.now.list.now self.now.i }
    {
        if self.gate() < GATES {
            return Ok(());
        }
        Err(Refusal::StepGate { record: self.i })
    }

    // A qubit that the record names.
    #[tactic(auto, using(crate::proofs::ListAsking::by_tests), unfolding(crate::specs::ListQuestions::step_qubit_question))]
    fn check_qubit(&self, qubit: u8) -> Result<(), Refusal>
        ensures { result ≡ step_qubit_question self.now.list.now self.now.i qubit }
    {
        if usize::from(qubit) < width(self.list) {
            return Ok(());
        }
        Err(Refusal::StepQubit { record: self.i })
    }

    #[tactic(auto, using(crate::proofs::ListAsking::by_tests), unfolding(crate::specs::Inside::Reading::step_different_question))]
    fn check_different(&self) -> Result<(), Refusal>
        ensures { result ≡ step_different_question self.now.i (byte_of self.now.list.now self.now.i 1) (byte_of self.now.list.now self.now.i 2) }
    {
        if self.first() == self.second() {
            return Err(Refusal::StepSameQubit { record: self.i });
        }
        Ok(())
    }

    // The second qubit of a gate on two.
    #[tactic(auto, using(pauli::proofs::Asking::by_questions), unfolding(crate::specs::Inside::Reading::two_questions))]
    fn check_two(&self) -> Result<(), Refusal>
        ensures { result ≡ two_questions self.now.list.now self.now.i }
    {
        self.check_qubit(self.second())?;
        self.check_different()
    }

    // The second qubit, where the gate has one.
    #[tactic(auto, using(crate::proofs::ListAsking::by_tests), unfolding(crate::specs::ListQuestions::step_second_questions, crate::specs::Inside::Reading::two_questions, crate::specs::Inside::Reading::step_different_question))]
    fn check_second(&self) -> Result<(), Refusal>
        ensures { result ≡ step_second_questions self.now.list.now self.now.i }
    {
        if self.gate() < ONE_QUBIT_GATES {
            return Ok(());
        }
        self.check_two()
    }

    // The qubits of the record, and then its link.
    #[tactic(auto, using(pauli::proofs::Asking::by_questions), unfolding(crate::specs::Inside::Reading::step_qubits_questions))]
    fn check_qubits(&self) -> Result<(), Refusal>
        ensures { result ≡ step_qubits_questions self.now.list.now self.now.i }
    {
        self.check_qubit(self.first())?;
        self.check_second()?;
        self.check_link()
    }

    // All of the record, in the order of the questions. A list asks this of each record: no question is worked out after a refusal.
    #[tactic(auto, using(pauli::proofs::Asking::by_questions), unfolding(crate::specs::ListQuestions::record_questions, crate::specs::Inside::Reading::step_qubits_questions))]
    pub(crate) fn check(&self) -> Result<(), Refusal>
        ensures { result ≡ record_questions self.now.list.now self.now.i }
    {
        self.check_zeros()?;
        self.check_gate()?;
        self.check_qubits()
    }
}
