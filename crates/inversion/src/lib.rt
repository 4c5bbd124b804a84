// Inverses modulo 3457 in the ring x^n = x^(n/2) - 1, by Euclid's algorithm.
#![tactic(auto)]

pub mod division;
pub mod euclid;
pub mod leading;
mod working;
