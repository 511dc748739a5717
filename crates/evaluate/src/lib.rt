// Truth of a rule at a bound, as a set of states, at its exact cost in looks. Nothing allocates.
#![tactic(auto)]

pub mod evaluation;
pub mod operands;
pub mod paths;
mod sets_of_parts;
pub mod truth;
