// Replays vectors from standard input on the functions of `pauli`, and on the lines of refusals.
#![tactic(auto)]

use pauli::refusal::Reply;
use pauli::{algebra, pauli_string, quarter_phase};
use refusal_lines::refusal_line;
use vectors::{Trial, byte, index, told};

// Calls the function that the case names.
fn call(trial: &mut Trial) -> Option<Reply> {
    let case = trial.case;
    let n1 = case.n1;
    let n2 = case.n2;
    let n3 = case.n3;
    match case.name {
        "from_sparse_str" => told(pauli_string::from_sparse_str(case.a, trial.d)),
        "from_dense_str" => told(pauli_string::from_dense_str(case.a, trial.d)),
        "from_str" => told(pauli_string::from_str(case.a, trial.d)),
        "refusal_line" => told(refusal_line(n1, n2, n3, trial.d)),
        "to_sparse_str" => told(pauli_string::to_sparse_str(case.a, trial.d)),
        "phase" => told(pauli_string::phase(case.a)),
        "get" => told(pauli_string::get(case.a, index(n1)?)),
        "anticommuting_places" => told(pauli_string::anticommuting_places(case.a, case.b)),
        "mul" => told(algebra::mul(case.a, case.b, trial.d)),
        "with_phase_and_paulis" => {
            told(pauli_string::with_phase_and_paulis(byte(n1)?, case.a, trial.d))
        }
        "phase_product" => told(quarter_phase::multiply(byte(n1)?, byte(n2)?)),
        "letter_product" => told(algebra::letter_product(byte(n1)?, byte(n2)?)),
        // Of one byte; the second number has to be a byte all the same.
        "phase_conjugate" => {
            byte(n2)?;
            told(quarter_phase::conjugate(byte(n1)?))
        }
        "phase_is_real" => {
            byte(n2)?;
            told(quarter_phase::is_real(byte(n1)?))
        }
        _ => None,
    }
}

fn main() {
    vectors::replay(call);
}
