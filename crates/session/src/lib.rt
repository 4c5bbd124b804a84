// A session: what a script has at hand between its lines, and how each line is answered.
#![tactic(auto)]

mod answers;
mod calls;
mod commands;
pub mod lines;
pub mod reply;
pub mod shown;
pub mod state;
pub mod step;
pub mod tally;
mod tasks;
