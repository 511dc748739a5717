// Why a rule line is refused.
use rule::fault::RuleFault;

#[derive(Clone, Copy, PartialEq, Eq, Debug)]
pub enum Cause {
    // Sixteen rules stand before it.
    TooMany,
    // Its text is no rule.
    Rule(RuleFault),
}
