// The table of records: how a rule is added, and how one record is read and changed.
ghost use Rattle.std.specs.Prelude.{◌≡◌, ◌<◌, [], ◌∷◌, ◌++◌, length, Some, None, MatchResult, slice_index_or, slice_set};
ghost use Rattle.std.specs.List.{slice_get};
ghost use Rattle.guarantee.specs.declared.fault.RosterFault.TheVariants.{NotLaid};
ghost use Rattle.guarantee.specs.Records.{noted};
ghost use Rattle.roster.specs.declared.laid.Laid.{Laid};

use crate::laid::{Laid, Records};
use ctl::Verdict;
use guarantee::RosterFault;
use std::alloc::{AllocError, Global};

impl Records {
    // No rule is laid.
    pub(crate) fn new(heap: Global) -> Records
        ensures { result.items.items ≡ [] }
    {
        Records {
            items: Vec::new(heap),
        }
    }

    // How many rules are laid.
    pub(crate) fn len(&self) -> usize
        ensures { result ≡ length self.now.items.items }
    {
        self.items.len()
    }

    // Adds a rule behind the others; without memory nothing changes.
    pub(crate) fn add(&mut self, laid: Laid) -> Result<(), AllocError>
        ensures { MatchResult result (λ _. self.new.items.items ≡ self.old.items.items ++ (laid ∷ [])) (λ _. self.new.items.items ≡ self.old.items.items) }
    {
        self.items.push(laid)?;
        Ok(())
    }

    // Rule i with its record, if that is laid.
    pub(crate) fn get(&self, i: usize) -> Result<&Laid, RosterFault>
        ensures { MatchResult result (λ x. slice_get self.now.items.items i ≡ Some x.now) (λ e. (e ≡ NotLaid) × (slice_get self.now.items.items i ≡ None)) }
    {
        self.items.get(i).ok_or(RosterFault::NotLaid)
    }

    // Notes in the record of rule i what an evaluation at `bound` gave; the other records stay.
    pub(crate) fn note(&mut self, i: usize, bound: u16, verdict: Verdict)
        requires { i < length self.old.items.items }
        ensures { (d : Laid) → self.new.items.items ≡ slice_set self.old.items.items i (record { trees = (slice_index_or self.old.items.items i d).trees; said = noted (slice_index_or self.old.items.items i d).said bound verdict }) }
    {
        self.items[i].said.note(bound, verdict);
    }
}
