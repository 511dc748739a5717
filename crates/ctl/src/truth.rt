// What is proved of truth at a bound and over endless paths. Each function's contract is a theorem; the body does nothing.
ghost use Rattle.ctl.specs.Claims.{NegationUndoesItself, TruthLasts, TruthIsForEver, NeverBothForEver, NeverBothAtABound, NeverBothAcrossBounds, DecidedInAClosedSet, DecidedFromTheCount, ExactFromTheCount, Decidable, PathsAreLists};

// Negating a normal form twice gives it back.
pub fn negation_undoes_itself()
    ensures { NegationUndoesItself }
{}

// What is true at a bound is true at every larger bound.
pub fn truth_lasts()
    ensures { TruthLasts }
{}

// What is true at a bound is true over endless paths.
pub fn truth_is_for_ever()
    ensures { TruthIsForEver }
{}

// A rule and its negation are never both true over endless paths.
pub fn never_both_for_ever()
    ensures { NeverBothForEver }
{}

// A rule and its negation are never both true at a bound.
pub fn never_both_at_a_bound()
    ensures { NeverBothAtABound }
{}

// A rule is never true at a bound and its negation at another.
pub fn never_both_across_bounds()
    ensures { NeverBothAcrossBounds }
{}

// In a set of states that no move leaves, from its size up, the rule or its negation is true.
pub fn decided_in_a_closed_set()
    ensures { DecidedInAClosedSet }
{}

// From the count of states up, at every state, the rule or its negation is true.
pub fn decided_from_the_count()
    ensures { DecidedFromTheCount }
{}

// From the count of states up, truth at a bound is exactly truth over endless paths.
pub fn exact_from_the_count()
    ensures { ExactFromTheCount }
{}

// A computed test says yes exactly where the rule is true at the bound.
pub fn decidable()
    ensures { Decidable }
{}

// Paths as lists of k + 1 states and paths as functions say the same.
pub fn paths_are_lists()
    ensures { PathsAreLists }
{}
