// Replays vectors from standard input on two made-up functions, `sum` and `say`: the shape that a
// replay program has. Only `call`, and what it calls, is this program's own.
#![tactic(auto)]

use pauli::refusal::{Refusal, Reply};
use pauli::rows::copy;
use vectors::Trial;

// Number 0 and the wrapped sum, with `a` at the front of `d`; refused where `d` has no room.
fn sum(trial: &mut Trial) -> Reply {
    let case = trial.case;
    if trial.d.len() < case.a.len() {
        return Reply::from(Refusal::Room);
    }
    copy(case.a, trial.d);
    Reply {
        number: 0,
        value: case.n1.wrapping_add(case.n2),
    }
}

// The number and the value that it is given, with `a` at the front of `d`.
fn say(trial: &mut Trial) -> Reply {
    let case = trial.case;
    copy(case.a, trial.d);
    Reply {
        number: case.n1,
        value: case.n2,
    }
}

// Calls the function that the case names.
fn call(trial: &mut Trial) -> Option<Reply> {
    match trial.case.name {
        "sum" => Some(sum(trial)),
        "say" => Some(say(trial)),
        _ => None,
    }
}

fn main() {
    vectors::replay(call);
}
