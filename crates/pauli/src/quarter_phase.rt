// Phases. Ports quarter_phase.rs of PECOS, changed: Apache License, Version 2.0.
ghost use Rattle.std.specs.Prelude.{◌≡◌};
ghost use Rattle.pauli_group.specs.Phase.{is_real};
ghost use Rattle.pauli.specs.Layout.{phase_of};
ghost use Rattle.pauli.specs.Rows.{conjugate_byte};
ghost use Rattle.pauli.specs.Promises.{PhasesMultiplied, PhaseConjugated, PhaseIsReal};

use crate::questions::{check_byte, check_pair};
use crate::refusal::Refusal;
use crate::rows::phase_times;

// The product of two phases.
#[tactic(auto, using(crate::proofs::Asking::by_questions), unfolding(crate::specs::Answers::answer_to, crate::specs::Answers::reply_of, crate::specs::Answers::reply_to))]
pub fn multiply(a: u8, b: u8) -> Result<u8, Refusal>
    ensures { PhasesMultiplied a b result }
{
    check_pair(a, b)?;
    Ok(phase_times(a, b))
}

// The conjugate of a phase byte; a byte above 3 is read as 3.
#[tactic(auto, unfolding(pauli_group::specs::Phase::conjugate, crate::specs::Layout::phase_byte, crate::specs::Layout::phase_of, crate::specs::Rows::conjugate_byte))]
pub fn phase_conjugate(p: u8) -> u8
    ensures { result ≡ conjugate_byte p }
{
    match p {
        0 => 0,
        1 => 1,
        2 => 3,
        _ => 2,
    }
}

#[tactic(auto, using(crate::proofs::Asking::by_questions), unfolding(crate::specs::Answers::answer_to, crate::specs::Answers::reply_of, crate::specs::Answers::reply_to))]
pub fn conjugate(p: u8) -> Result<u8, Refusal>
    ensures { PhaseConjugated p result }
{
    check_byte(p)?;
    Ok(phase_conjugate(p))
}

// Whether a phase byte is +1 or -1; a byte above 3 is read as 3.
#[tactic(auto, using(crate::proofs::Asking::by_tests, crate::proofs::Asking::by_questions), unfolding(pauli_group::specs::Phase::is_real, crate::specs::Layout::phase_of))]
fn real_phase(p: u8) -> bool
    ensures { result ≡ is_real (phase_of p) }
{
    p < 2
}

#[tactic(auto, using(crate::proofs::Asking::by_questions), unfolding(crate::specs::Answers::answer_to, crate::specs::Answers::reply_of, crate::specs::Answers::reply_to))]
pub fn is_real(p: u8) -> Result<bool, Refusal>
    ensures { PhaseIsReal p result }
{
    check_byte(p)?;
    Ok(real_phase(p))
}
