// What is recorded of a rule.
ghost use Rattle.std.specs.Prelude.{◌≡◌};
ghost use Rattle.guarantee.specs.States.{standing_answer};
ghost use Rattle.roster.specs.Books.{state_in, state_of};

use crate::book::{Book, Roster};
use guarantee::{Record, RosterFault};

impl Book {
    // The record of rule i, if that is laid.
    fn standing(&self, i: usize) -> Result<Record, RosterFault>
        ensures { result ≡ standing_answer (state_in self.now) i }
    {
        Ok(self.records.get(i)?.said)
    }
}

impl Roster {
    // The record of rule i; nothing changes.
    pub(crate) fn standing(&self, i: usize) -> Result<Record, RosterFault>
        ensures { result ≡ standing_answer (state_of self.now) i }
    {
        self.opened()?.standing(i)
    }
}
