// Pauli strings as byte records: phases, letters, strings, their products and their commutation.
// Every public function is total: any bytes of any length get an answer or a numbered refusal.
#![tactic(auto)]

pub mod algebra;
mod dense_reader;
mod entries;
pub mod pauli_string;
pub mod quarter_phase;
pub mod questions;
pub mod refusal;
pub mod rows;
mod sparse_reader;
pub mod sparse_text;
mod text;
pub mod text_writer;

// The qubits of a string, and the bytes of its record: its phase and a letter for each.
pub const QUBITS: usize = 128;

pub const STRING_LENGTH: usize = 129;
