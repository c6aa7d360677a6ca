// Replays vectors from standard input on the functions of `clifford`, `gate_play`, `preview` and `gate_list`.
#![tactic(auto)]

use clifford::clifford_rep::{Generator, X, Z};
use clifford::{clifford as gates, clifford_rep};
use gate_list::gate_list as lists;
use gate_play::play;
use pauli::refusal::Reply;
use vectors::{Case, Expected, Trial, byte, index, told};

// Whether the part is the row of the record that starts at this offset.
fn is_row(t: &[u8], at: usize, part: &[u8]) -> bool {
    let [width, ..] = t else {
        return false;
    };
    let Some(rest) = t.get(at..) else {
        return false;
    };
    part.len() == usize::from(*width) + 2 && rest.starts_with(part)
}

// The value is the offset of the part handed out, so the part is compared with what stands there.
fn image<G: Generator>(case: &Case, slot: usize) -> Option<Reply> {
    let part = match clifford_rep::image::<G>(case.a, slot) {
        Ok(part) => part,
        Err(why) => return Some(Reply::from(why)),
    };
    let Expected::Exactly(Reply { value, .. }) = case.expected else {
        return None;
    };
    is_row(case.a, index(value)?, part).then_some(Reply { number: 0, value })
}

// A text that is written starts as every such text does.
fn display(t: &[u8], d: &mut [u8]) -> Option<Reply> {
    let answer = clifford_rep::display(t, d);
    if answer.is_ok() && !clifford_rep::starts_with_name(d) {
        return None;
    }
    told(answer)
}

// The weight of a row of one letter.
fn weight(letter: u8) -> u8 {
    u8::from(letter != 0)
}

// The record of width 1 of a number: its two phases and letters, two bits each. Its weights are true.
fn one_qubit(number: u8) -> [u8; 7] {
    let x = number / 16 % 4;
    let z = number % 4;
    [1, number / 64, weight(x), x, number / 4 % 4, weight(z), z]
}

// The number of a record of width 1; bytes that are no such record, also for a false weight, have none.
fn number_of(record: [u8; 7]) -> Option<u8> {
    let [_, x_phase, _, x, z_phase, _, z] = record;
    let number = x_phase % 4 * 64 + x % 4 * 16 + z_phase % 4 * 4 + z % 4;
    (record == one_qubit(number)).then_some(number)
}

fn compose_one(a: &[u8], number: u8) -> Option<u8> {
    let mut out = [0; 7];
    clifford_rep::compose(a, &one_qubit(number), &mut out).ok()?;
    number_of(out)
}

// a composed with each record of width 1 in turn. A call that is refused, or that writes no record, is no match.
fn compose_each(a: &[u8], d: &mut [u8]) -> Option<Reply> {
    for row in d.chunks_mut(256) {
        for (number, made) in (0..=255).zip(row) {
            *made = compose_one(a, number)?;
        }
    }
    told(Ok(()))
}

// Calls the function of gates or of lists that the case names.
fn call_gates(trial: &mut Trial) -> Option<Reply> {
    let case = trial.case;
    let n1 = case.n1;
    let q = index(case.n2)?;
    let r = index(case.n3)?;
    match case.name {
        "gate_compose" => told(gates::compose(byte(n1)?, byte(case.n2)?)),
        "gate_inverse" => told(gates::inverse(byte(n1)?)),
        "on_qubit" => told(gates::on_qubit(byte(n1)?, q, trial.d)),
        "on_qubits" => told(gates::on_qubits(byte(n1)?, q, r, trial.d)),
        "play" => told(play(trial.d, byte(n1)?, q, r)),
        "from_clifford_rep" => told(gates::from_clifford_rep(case.a)),
        "single_qubit_clifford" => told(gates::single_qubit_clifford(index(n1)?, q, trial.d)),
        "run" => told(lists::run(case.a, trial.d)),
        "report" => told(lists::report(case.a, trial.d)),
        _ => None,
    }
}

// Calls the function that the case names.
fn call(trial: &mut Trial) -> Option<Reply> {
    let case = trial.case;
    let n = index(case.n1)?;
    match case.name {
        "compose" => told(clifford_rep::compose(case.a, case.b, trial.d)),
        "compose_each" => compose_each(case.a, trial.d),
        "apply" => told(clifford_rep::apply(case.a, case.b, trial.d)),
        "composed_x_image" => told(preview::composed_image::<X>(case.a, case.b, n, trial.d)),
        "composed_z_image" => told(preview::composed_image::<Z>(case.a, case.b, n, trial.d)),
        "identity" => told(clifford_rep::identity(n, trial.d)),
        "from_pauli_string" => told(clifford_rep::from_pauli_string(case.a, trial.d)),
        "set_x_image" => told(clifford_rep::set_image::<X>(trial.d, n, case.a)),
        "set_z_image" => told(clifford_rep::set_image::<Z>(trial.d, n, case.a)),
        "is_valid" => told(clifford_rep::is_valid(case.a)),
        "extended_to" => told(clifford_rep::extended_to(case.a, n, trial.d)),
        "inverse" => told(clifford_rep::inverse(case.a, trial.d)),
        "support_qubits" => told(clifford_rep::support_qubits(case.a, trial.d)),
        "display" => display(case.a, trial.d),
        "x_image" => image::<X>(&case, n),
        "z_image" => image::<Z>(&case, n),
        _ => call_gates(trial),
    }
}

fn main() {
    vectors::replay(call);
}
