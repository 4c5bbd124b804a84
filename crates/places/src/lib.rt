// The eight places of a station: what a filled place holds, and how places are looked at, filled, joined and emptied.
// A station that has found its key fit for its engines meets each `requires` here.
// Rows are arrays of the largest degree with a degree beside them, since nothing here asks for memory.
#![tactic(auto)]

pub mod filled;
mod keeping;
pub mod lines;
pub mod outputs;
pub mod register;
