// Gates by their numbers: 0 to 23 are on one qubit, 24 to 37 on two.
ghost use Rattle.std.specs.Prelude.{◌≡◌, ◌<◌, ◌≤◌};
ghost use Rattle.clifford.specs.Inside.GateRows.{GateOn};

#[derive(Clone, Copy)]
pub(crate) struct OneQubitGate {
    pub(crate) number: usize,
    ghost small: { number < 24 },
}

#[derive(Clone, Copy)]
pub(crate) struct TwoQubitGate {
    pub(crate) number: usize,
    ghost from: { 24 ≤ number },
    ghost below: { number < 38 },
}

#[derive(Clone, Copy)]
pub(crate) enum Gate {
    One(OneQubitGate),
    Two(TwoQubitGate),
}

// A gate on its qubits; the second is not looked at for gates 0 to 23. One struct for both kinds: `gate_tableau`, its width and its
// questions are defined by a number and two qubits, which an enum would have to give again in each promise.
#[derive(Clone, Copy)]
pub(crate) struct PlacedGate {
    pub(crate) number: usize,
    pub(crate) first: usize,
    pub(crate) second: usize,
    ghost on: { GateOn number first second },
}

impl Gate {
    ghost use Rattle.clifford.specs.Inside.Numbering.{gate_number};

    // No `From`, which would take any number, and no `TryFrom`, whose failure would never come: the number was asked about before.
    #[tactic(auto, unfolding(crate::specs::Inside::Numbering::gate_number))]
    pub(crate) fn numbered(number: usize) -> Self
        requires { number < 38 }
        ensures { gate_number result ≡ number }
    {
        if number < 24 {
            Gate::One(OneQubitGate { number })
        } else {
            Gate::Two(TwoQubitGate { number })
        }
    }
}
