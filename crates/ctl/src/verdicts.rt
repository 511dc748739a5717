// What is proved of verdicts and of the deciding bound. Each function's contract is a theorem; the body does nothing.
ghost use Rattle.ctl.specs.Claims.{OneVerdict, OneDecidingBound, VerdictsMean};

// The computed verdict is the verdict at the bound, and the only one.
pub fn one_verdict()
    ensures { OneVerdict }
{}

// Each rule on each total model has exactly one deciding bound, at most the count of states, and its verdict stays.
pub fn one_deciding_bound()
    ensures { OneDecidingBound }
{}

// A rule that holds at a bound is true over endless paths at every start; one that fails is false over them at some start.
pub fn verdicts_mean()
    ensures { VerdictsMean }
{}
