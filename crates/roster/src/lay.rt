// A rule text is read and laid.
ghost use Rattle.std.specs.Prelude.{◌≡◌, ◌⊎◌, Ok, MatchResult};
ghost use Rattle.rule.specs.Faults.{Earns};
ghost use Rattle.rule.specs.Tree.{formula};
ghost use Rattle.rule.specs.declared.fault.RuleFault.{RuleFault};
ghost use Rattle.guarantee.specs.States.{opened, ReadsAs};
ghost use Rattle.guarantee.specs.declared.fault.RosterFault.TheVariants.{Rule as Text, Memory};
ghost use Rattle.roster.specs.Books.{model_in, laid_in, state_of};
ghost use Rattle.roster.specs.Lays.{LaysOrWantsMemory, refused_as};

use crate::book::{Book, Roster};
use crate::laid::{Laid, Trees};
use guarantee::{Record, RosterFault};
use rule::RuleFault;
use rule_reader::{MOST_RULES, read_rule};
use std::alloc::Global;

// The refusal of a text; want of memory is the roster's own, so this is not the `From` of a rule's fault, which
// carries every fault whole.
fn refusal(fault: RuleFault) -> RosterFault
    ensures { result ≡ refused_as fault }
{
    match fault {
        RuleFault::Memory => RosterFault::Memory,
        _ => RosterFault::Rule(fault),
    }
}

// The tree of a text and of its negation.
fn read_trees(heap: Global, text: &[u8]) -> Result<Trees, RosterFault>
    ensures { MatchResult result (λ t. ReadsAs text.now (Ok (formula t.rule))) (λ e. (e ≡ Memory) ⊎ ((x : RuleFault) × (e ≡ Text x) × Earns text.now x)) }
{
    let rule = read_rule(heap, text).map_err(refusal)?;
    let negation = rule.negated(heap)?;
    Ok(Trees { rule, negation })
}

impl Book {
    // Lays a rule with an empty record, and answers its number.
    #[tactic(auto, using(crate::proofs::Laying::lay_refused, crate::proofs::Laying::lay_taken))]
    pub(crate) fn lay(&mut self, heap: Global, text: &[u8]) -> Result<usize, RosterFault>
        ensures { LaysOrWantsMemory (opened (model_in self.old) (laid_in self.old)) text.now result (opened (model_in self.new) (laid_in self.new)) }
    {
        let number = self.records.len();
        if number >= MOST_RULES {
            return Err(RosterFault::Full);
        }
        let trees = read_trees(heap, text)?;
        let said = Record::new();
        self.records.add(Laid { trees, said })?;
        Ok(number)
    }
}

impl Roster {
    // Lays a rule.
    pub(crate) fn lay(&mut self, heap: Global, text: &[u8]) -> Result<usize, RosterFault>
        ensures { LaysOrWantsMemory (state_of self.old) text.now result (state_of self.new) }
    {
        self.opened_mut()?.lay(heap, text)
    }
}
