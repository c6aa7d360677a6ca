// The mathematics of Pauli strings: definitions in specs/, laws in proofs/. No code runs from here.
#![tactic(auto)]
