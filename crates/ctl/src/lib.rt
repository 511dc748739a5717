// Computation tree logic on a channel's model: what a rule means, and what is proved of that meaning.
//
// The operators and the verdict are enums of the code, which the definitions in specs/ use too.
#![tactic(auto)]

ghost use Rattle.std.specs.Prelude.{Some};
ghost use Rattle.ctl.specs.Verdict.{verdict_word};

use std::fmt;

pub mod looks;
pub mod setwise;
pub mod truth;
pub mod verdicts;
pub mod worked;

// Over which paths from a state a path part is asked: A and E.
#[derive(Clone, Copy, PartialEq, Eq, Debug)]
pub enum Quantifier {
    All,
    Exists,
}

// How two rules are joined: & and |.
#[derive(Clone, Copy, PartialEq, Eq, Debug)]
pub enum Connective {
    And,
    Or,
}

// What is asked of one rule along a path: X, F and G.
#[derive(Clone, Copy, PartialEq, Eq, Debug)]
pub enum Unary {
    Next,
    Eventually,
    Always,
}

// What is asked of two rules along a path: U and R.
#[derive(Clone, Copy, PartialEq, Eq, Debug)]
pub enum Binary {
    Until,
    Release,
}

// What is known of a rule at a bound.
#[derive(Clone, Copy, PartialEq, Eq, Debug)]
pub enum Verdict {
    Holds,
    Fails,
    Undecided,
}

impl fmt::Display for Verdict {
    ghost output = { λ verdict. Some (verdict_word verdict) };

    fn fmt<W: fmt::Write>(&self, f: &mut fmt::Formatter<W>) -> fmt::Result {
        f.write_str(match self {
            Verdict::Holds => "holds",
            Verdict::Fails => "fails",
            Verdict::Undecided => "undecided",
        })
    }
}
