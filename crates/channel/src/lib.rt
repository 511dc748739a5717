// The channel file: rows, then rules, then a line that says where the rules begin; and its listing.
#![tactic(auto)]

pub mod cause;
pub mod fault;
pub mod line;
pub mod listing;
mod parts;
mod rules;
mod summary;
