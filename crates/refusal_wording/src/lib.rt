// The line of a refusal: its text in specs/, what it tells in proofs/. No code runs from here.
#![tactic(auto)]
