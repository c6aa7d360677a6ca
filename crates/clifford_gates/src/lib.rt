// The mathematics of the 38 Clifford gates: definitions in specs/, laws in proofs/. No code runs from here.
#![tactic(auto)]
