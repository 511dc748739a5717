// A try of one rule at one bound.
ghost use Rattle.std.specs.Prelude.{◌≡◌, None};
ghost use Rattle.std.specs.List.{slice_get};
ghost use Rattle.rule.specs.Tree.{formula};
ghost use Rattle.table.specs.Kept.{kept};
ghost use Rattle.guarantee.specs.States.{judged, try_entry, entries_after, try_answer, try_after};
ghost use Rattle.roster.specs.Books.{model_in, laid_in, state_of};

use crate::book::{Book, Roster};
use crate::laid::Laid;
use guarantee::{RosterFault, Tried};
use table::kept::Table;
use verdict::judged::judge;

// The highest bound that may be tried.
pub const HIGHEST: u16 = 255;

impl Laid {
    // The verdict on the rule at a bound by evaluation; refused where it costs more looks than the limit.
    // The table is the book's, bound and limit are the call's. Want of looks and the judgement are turned into the
    // roster's own here and by no From: both types are of crates that do not see each other.
    #[tactic(auto, using(crate::proofs::Negating::negates))]
    pub(crate) fn evaluate(
        &self,
        table: &Table,
        bound: u16,
        limit: u32,
    ) -> Result<Tried, RosterFault>
        ensures { result ≡ judged (kept table.now) (formula self.now.trees.rule) bound limit None }
    {
        let judgement = judge(table, &self.trees.rule, &self.trees.negation, bound, limit).map_err(
            |_above| RosterFault::Looks,
        )?;
        Ok(Tried {
            verdict: judgement.verdict,
            looks: judgement.looks,
        })
    }
}

impl Book {
    // The record's answer, or else that of an evaluation, which the record then takes. Rule, bound and limit are the
    // call's own, as users give them; `model` ties the book before to the book after, which no invariant of one can.
    pub(crate) fn attempt(&mut self, i: usize, bound: u16, limit: u32) -> Result<Tried, RosterFault>
        ensures answer { result ≡ try_entry (model_in self.old) (slice_get (laid_in self.old) i) bound limit }
        ensures after { laid_in self.new ≡ entries_after (laid_in self.old) i bound (slice_get (laid_in self.old) i) result }
        ensures model { model_in self.new ≡ model_in self.old }
    {
        let laid = self.records.get(i)?;
        if bound > HIGHEST {
            return Err(RosterFault::Bound);
        }
        if let Some(verdict) = laid.said.known_at(bound) {
            return Ok(Tried { verdict, looks: 0 });
        }
        let tried = laid.evaluate(&self.table, bound, limit)?;
        self.records.note(i, bound, tried.verdict);
        Ok(tried)
    }
}

impl Roster {
    // Tries rule i at a bound.
    pub(crate) fn attempt(&mut self, i: usize, bound: u16, limit: u32) -> Result<Tried, RosterFault>
        ensures answer { result ≡ try_answer (state_of self.old) i bound limit }
        ensures after { state_of self.new ≡ try_after (state_of self.old) i bound limit }
    {
        self.opened_mut()?.attempt(i, bound, limit)
    }
}
