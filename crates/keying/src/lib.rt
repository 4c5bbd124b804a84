// Keys and their making: a draft over two engines takes f' and g, and h is made so that h·f = g modulo 3457.
// Rows are arrays of the largest degree with a degree beside them, since nothing here asks for memory.
#![tactic(auto)]

pub mod draft;
pub mod engines;
mod inverse;
pub mod key;
mod making;
mod parts;
