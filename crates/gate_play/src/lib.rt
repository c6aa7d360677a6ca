// A gate on a tableau record, in place: its own tableau composed on the left, after all questions. Nothing of it is PECOS's.
#![tactic(auto)]

ghost use Rattle.std.specs.Prelude.{◌≡◌};
ghost use Rattle.gate_play.specs.PlayQuestions.{play_questions};
ghost use Rattle.gate_play.specs.Promises.{Played};

use clifford::clifford::check_qubits;
use clifford::layout::width;
use clifford::playing::play_gate;
use clifford::questions::{check_gate, check_tableau};
use pauli::refusal::Refusal;

#[tactic(auto, using(pauli::proofs::Asking::by_questions), unfolding(crate::specs::PlayQuestions::play_questions))]
fn check_play(t: &[u8], gate: usize, q0: usize, q1: usize) -> Result<(), Refusal>
    ensures { result ≡ play_questions t.now gate q0 q1 }
{
    check_tableau(t)?;
    check_gate(38, gate)?;
    check_qubits(width(t), gate, q0, q1)
}

// The gate's tableau on q0 and q1 composed on the left of the tableau t: t acts first. q1 is not looked at for gates 0 to 23.
pub fn play(t: &mut [u8], gate: u8, q0: usize, q1: usize) -> Result<(), Refusal>
    ensures { Played gate q0 q1 t.old t.new result }
{
    check_play(t, usize::from(gate), q0, q1)?;
    play_gate(gate, q0, q1, t);
    Ok(())
}
