// Clifford tableaux as byte records: the images of X and Z on each qubit, how they act on strings, their composition and their inverses.
// Every public function is total: any bytes of any length get an answer or a numbered refusal.
#![tactic(auto)]

mod applying;
pub mod clifford;
pub mod clifford_rep;
mod displaying;
mod gates;
mod inverting;
pub mod layout;
mod numbering;
mod pauli_tableau;
pub mod playing;
pub mod questions;
mod setting;
mod support;
mod tableau;
pub mod tables;
mod validity;
mod writing;
