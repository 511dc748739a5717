// The kept table: what a model answered about each of its states, kept as sets, and the operators
// of rules at a bound as rounds over these sets.
#![tactic(auto)]

pub mod asked;
pub mod kept;
pub mod lassos;
pub mod rounds;
pub mod steps;
