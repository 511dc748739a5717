// What a roster of rules promises over any list of calls.
//
// The values that its calls answer with are types of the code; specs/ has the state of a roster,
// what each call makes of it, and the guarantee, a law over calls and answers.
#![tactic(auto)]

pub mod answer;
pub mod claims;
pub mod fault;
pub mod record;

pub use answer::{Settled, Tried};
pub use fault::RosterFault;
pub use record::{Found, Record};
