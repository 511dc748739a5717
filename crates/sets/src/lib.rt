// Sets of states as bits in words, for as many states as one constant says.
#![tactic(auto)]

pub mod lowest;
pub mod members;
pub mod ops;
pub mod set;
