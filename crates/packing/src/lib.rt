// Rows of numbers of a few bits each as bytes and back, low bits first, and published keys.
#![tactic(auto)]

pub mod bits;
pub mod keys;
mod narrow;
mod pending;
pub mod rows;
