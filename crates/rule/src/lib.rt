// What a rule is: as a tree in negation normal form, and as a text that the grammar has. A text has at
// most one formula and earns at most one fault.
#![tactic(auto)]

pub mod claims;
pub mod fault;
mod opposite;
pub mod sign;
pub mod tree;

pub use fault::RuleFault;
pub use tree::{PathPart, Rule};
