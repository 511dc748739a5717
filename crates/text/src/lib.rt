// What every text format here is made of: pieces up to a delimiter, lines, and numbers in figures.
#![tactic(auto)]

pub mod figures;
pub mod lines;
pub mod pieces;
