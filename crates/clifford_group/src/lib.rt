// The mathematics of Clifford tableaux: definitions in specs/, laws in proofs/. No code runs from here.
#![tactic(auto)]
