// The row text: a channel's control table as a scheduler writes it, a line for each state, read into rows.
#![tactic(auto)]

pub mod fault;
pub mod lines;
mod reader;
pub mod row;
