// Wrapped messages as rows of coefficients: wrapping, joining, trimming, and what noise does to them.
#![tactic(auto)]

pub mod join;
pub mod noise;
pub mod secret;
pub mod trim;
pub mod wrap;
