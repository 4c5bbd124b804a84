// The ring x^n = x^(n/2) - 1 over residues, and the engines that multiply in it.
#![tactic(auto)]

pub mod coefficient;
pub mod counting;
pub mod engine;
pub mod inverse;
pub mod laws;
pub mod modular;
pub mod numbers;
pub mod refusal;
pub mod residue;
pub mod rows;
pub mod turning;
