// The code that carries four message bits in eight coefficients: sixteen words, folds, squared distances and the nearest word.
#![tactic(auto)]

mod costs;
pub mod distance;
pub mod fold;
pub mod laws;
pub mod message;
pub mod nearest;
pub mod nibble;
pub mod octets;
pub mod root;
mod shifted;
pub mod width;
pub mod words;
