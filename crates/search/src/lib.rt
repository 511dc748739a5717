// The counted search: looks at the simple paths inside a set, and stops as soon as a budget is passed.
#![tactic(auto)]

pub mod budget;
pub mod simple;
