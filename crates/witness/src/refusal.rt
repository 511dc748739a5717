// Why no witness is written.
ghost use Rattle.std.specs.Prelude.{◌≡◌};
ghost use Rattle.witness.specs.declared.refusal.NoWitness.TheVariants.{Looks};

use search::budget::AboveBudget;

#[derive(Clone, Copy, PartialEq, Eq, Debug)]
pub enum NoWitness {
    // The buffer is too short.
    Room,
    // The part's rules cost more than the budget.
    Looks,
    // The part is true on no path from there.
    Untrue,
}

// By hand, since a clause tells which error `?` makes of a cost above the budget.
impl From<AboveBudget> for NoWitness {
    ghost from_gives = { λ _ r. r ≡ Looks };

    fn from(_above: AboveBudget) -> Self {
        NoWitness::Looks
    }
}
