// How a script's lines are read: words, numbers, bytes and rows.
#![tactic(auto)]

mod arguments;
pub mod coefficients;
pub mod fault;
pub mod hex;
pub mod laws;
pub mod lengths;
pub mod numbers;
mod pieces;
pub mod rows;
pub mod spaces;
pub mod text;
pub mod words;
