// The script language of the console: a line is read as a command, and an answer is written as a line.
#![tactic(auto)]

pub mod answer;
pub mod command;
pub mod laws;
mod names;
pub mod request;
pub mod task;
pub mod written;
