// Reads rule text: a text is taken only if the grammar has it, and a refusal points at the byte where no
// rule can go on.
#![tactic(auto)]

ghost use Rattle.std.specs.Prelude.{◌≡◌, ◌⊎◌, MatchResult};
ghost use Rattle.rule.specs.Faults.{Sized, Taken, Earns};
ghost use Rattle.rule.specs.Grammar.{Means};
ghost use Rattle.rule.specs.Tree.{formula};
ghost use Rattle.rule.specs.declared.fault.RuleFault.TheVariants.{Memory};

mod reader;

use reader::Reader;
use rule::fault::RuleFault;
use rule::tree::Rule;
use std::alloc::Global;

// The most bytes that a rule text may have.
pub const LONGEST: usize = 255;

// The most rules that a file or a roster may have.
pub const MOST_RULES: usize = 16;

// The rule that `text` means. `reads` says which tree comes back and that a refusal is the one that
// the text earns; `exactly` says that a text is taken if and only if it is a rule of lawful length.
// Memory may run out before a fault further on in the text is met.
pub fn read_rule(heap: Global, text: &[u8]) -> Result<Rule, RuleFault>
    ensures reads { MatchResult result (λ f. Sized text.now × Means text.now (formula f)) (λ e. (e ≡ Memory) ⊎ Earns text.now e) }
    ensures exactly { MatchResult result (λ _. Taken text.now) (λ e. (e ≡ Memory) ⊎ (Taken text.now → ⊥)) }
{
    if text.is_empty() || text.len() > LONGEST {
        return Err(RuleFault::Length);
    }
    Reader::new(heap, text).whole()
}
