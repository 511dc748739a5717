// Witness paths: a k-path on which the path part under a root E is true, written into a lent buffer.
#![tactic(auto)]

pub mod cycle;
pub mod refusal;
pub mod root;
pub mod until;
