// The verdict on a rule at a bound, within a limit of looks.
#![tactic(auto)]

pub mod judged;
