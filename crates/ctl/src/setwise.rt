// The set-wise test of a rule and the search that counts its looks, against which evaluation is proved.
ghost use Rattle.std.specs.Prelude.{◌≡◌};
ghost use Rattle.ctl.specs.Search.{SearchTakesTheShare};
ghost use Rattle.ctl.specs.Setwise.{SetwiseDecides, SetwiseCosts, SetwiseJudges, unary_operator, binary_operator};

use crate::{Binary, Unary};

// A path part as an operator on two sets of states: F f is 1 U f, and G f is 0 R f.
#[derive(Clone, Copy, PartialEq, Eq, Debug)]
pub enum Operator {
    Next,
    Until,
    Release,
}

impl From<Unary> for Operator {
    ghost from_gives = { λ op operator. operator ≡ unary_operator op };

    fn from(op: Unary) -> Self {
        match op {
            Unary::Next => Operator::Next,
            Unary::Eventually => Operator::Until,
            Unary::Always => Operator::Release,
        }
    }
}

impl From<Binary> for Operator {
    ghost from_gives = { λ op operator. operator ≡ binary_operator op };

    fn from(op: Binary) -> Self {
        match op {
            Binary::Until => Operator::Until,
            Binary::Release => Operator::Release,
        }
    }
}

// Inside a set that no move leaves, the set-wise test says yes exactly where the rule is true at the bound.
pub fn setwise_decides()
    ensures { SetwiseDecides }
{}

// A path part's own cost is that of its operator on the set that the set-wise test gives.
pub fn setwise_costs()
    ensures { SetwiseCosts }
{}

// Where the starts count, the verdict is that of the set-wise tests of the rule and of its negation.
pub fn setwise_judges()
    ensures { SetwiseJudges }
{}

// The counting search takes the share of its state in looks, and hits where there is a simple path of exactly k moves.
pub fn search_takes_the_share()
    ensures { SearchTakesTheShare }
{}
