// Gate lists: their format, their questions, and their run.
// Every public function is total: any bytes of any length get an answer or a numbered refusal.
#![tactic(auto)]

mod chain;
pub mod gate_list;
mod questions;
mod reading;
mod reporting;
mod running;
