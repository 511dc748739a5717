// A roster: up to sixteen rules laid on one kept model, each with its record.
#![tactic(auto)]

mod attempt;
pub mod book;
pub mod laid;
mod lay;
mod open;
mod path;
mod records;
mod settle;
mod standing;
