// The row model: a model that a row text fills.
#![tactic(auto)]

pub mod answers;
mod checked;
pub mod row_model;
