// Key custody: drafts are commissioned into stations, stations keep wrapped messages, and every list of calls keeps the promise.
#![tactic(auto)]

pub mod call;
pub mod engines;
pub mod exchange;
pub mod holder;
pub mod holding;
pub mod perform;
pub mod promise;
pub mod readings;
pub mod station;
pub mod writings;
