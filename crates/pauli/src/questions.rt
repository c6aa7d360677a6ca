// The questions on entry that every layer puts. Each lets by, or answers the refusal.
ghost use Rattle.std.specs.Prelude.{◌≡◌};
ghost use Rattle.pauli.specs.Questions.{byte_question, pair_questions, string_questions, strings_questions, qubit_question, room_question};

use crate::refusal::Refusal;
use crate::rows::first_bad;
use crate::{QUBITS, STRING_LENGTH};

// A phase or a letter given by itself.
#[tactic(auto, using(crate::proofs::Asking::by_tests, crate::proofs::Asking::by_questions), unfolding(crate::specs::Questions::byte_question))]
pub fn check_byte(b: u8) -> Result<(), Refusal>
    ensures { result ≡ byte_question b }
{
    if 3 < b {
        return Err(Refusal::BadByte { offset: 0 });
    }
    Ok(())
}

// Two of them, the first one first.
#[tactic(auto, using(crate::proofs::Asking::by_tests, crate::proofs::Asking::by_questions), unfolding(crate::specs::Questions::pair_questions))]
pub fn check_pair(a: u8, b: u8) -> Result<(), Refusal>
    ensures { result ≡ pair_questions a b }
{
    check_byte(a)?;
    check_byte(b)
}

// A string record.
#[tactic(auto, using(crate::proofs::Asking::questions))]
pub fn check_string(s: &[u8]) -> Result<(), Refusal>
    ensures { result ≡ string_questions s.now }
{
    if s.len() != STRING_LENGTH {
        return Err(Refusal::Length);
    }
    match first_bad(s) {
        Some(offset) => Err(Refusal::BadByte { offset }),
        None => Ok(()),
    }
}

// Two string records, the first one first.
#[tactic(auto, using(crate::proofs::Asking::questions), unfolding(crate::specs::Questions::strings_questions))]
pub fn check_strings(s: &[u8], t: &[u8]) -> Result<(), Refusal>
    ensures { result ≡ strings_questions s.now t.now }
{
    check_string(s)?;
    check_string(t)
}

#[tactic(auto, using(crate::proofs::Asking::questions))]
pub fn check_qubit(qubit: usize) -> Result<(), Refusal>
    ensures { result ≡ qubit_question qubit }
{
    if qubit < QUBITS {
        return Ok(());
    }
    Err(Refusal::Qubit { qubit })
}

// Room for the bytes that an answer needs.
#[tactic(auto, using(crate::proofs::Asking::by_tests, crate::proofs::Asking::by_questions), unfolding(crate::specs::Questions::room_question))]
pub fn check_room(needed: usize, room: usize) -> Result<(), Refusal>
    ensures { result ≡ room_question needed room }
{
    if room < needed {
        return Err(Refusal::Room);
    }
    Ok(())
}
