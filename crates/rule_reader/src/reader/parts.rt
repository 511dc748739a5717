// The readings of units, path parts and rules, which call each other as the grammar does. Each takes
// what it can, and stands behind it; a refusal is at the place where no rule could go on. `onward` ties the
// reader before a step to that after it, which no invariant of one can; `Ended` holds behind a rule only, so
// it is asked and no invariant.
ghost use Rattle.std.specs.Prelude.{◌≡◌, [], ◌∷◌, MatchResult};
ghost use Rattle.rule_reader.specs.Ahead.{ahead, Onward, HaltsAhead};
ghost use Rattle.rule_reader.specs.Chains.{IsOperand, IsChain, OperandEnded};
ghost use Rattle.rule_reader.specs.Halts.{Clear, Ended};
ghost use Rattle.rule.specs.Grammar.{Reads, IsUnit, IsPathPart, IsRule, Means};
ghost use Rattle.rule.specs.Tree.{formula, part_formula};
ghost use Rattle.rule.proofs.Walk.{closing, joining, need, part, after};
ghost use Rattle.rule.specs.declared.sign.Sign.TheVariants.{Connective as ConnectiveSign, Close, Binary as BinarySign};

use crate::reader::Reader;
use ctl::{Binary, Connective};
use rule::fault::RuleFault;
use rule::sign::Sign;
use rule::tree::{PathPart, Rule};

impl<'a> Reader<'a> {
    // The rule that all of the text ahead is.
    pub(crate) fn whole(&mut self) -> Result<Rule, RuleFault>
        ensures reads { MatchResult result (λ f. Means (ahead self.old) (formula f)) (HaltsAhead (λ _. need []) self.old) }
    {
        let rule = self.rule()?;
        self.end()?;
        Ok(rule)
    }

    // Terms joined by |, each of them units joined by &. A term is chain(And).
    #[cycle(reading)]
    fn rule(&mut self) -> Result<Rule, RuleFault>
        ensures onward { Onward self.old self.new }
        ensures reads { MatchResult result (λ f. IsRule (ahead self.old) (formula f) (ahead self.new) × Ended (ahead self.new)) (HaltsAhead need self.old) }
    {
        self.chain(Connective::Or)
    }

    // Operands joined by `op`.
    #[cycle(reading)]
    fn chain(&mut self, op: Connective) -> Result<Rule, RuleFault>
        ensures onward { Onward self.old self.new }
        ensures reads { MatchResult result (λ f. IsChain op (ahead self.old) (formula f) (ahead self.new) × OperandEnded op (ahead self.new) × Clear (ConnectiveSign op) (ahead self.new)) (HaltsAhead need self.old) }
    {
        let mut left = self.operand(op)?;
        while matches!(self.peek(), Some(Sign::Connective(next)) if next == op) {
            self.pass();
            let right = self.operand(op)?;
            left = Rule::joined(self.heap, op, left, right)?;
        }
        Ok(left)
    }

    // What `op` joins: & units, | terms. A match and no closure: one that calls the reader again would stand in
    // the cycle and have no contract.
    #[cycle(reading)]
    fn operand(&mut self, op: Connective) -> Result<Rule, RuleFault>
        ensures onward { Onward self.old self.new }
        ensures reads { MatchResult result (λ f. IsOperand op (ahead self.old) (formula f) (ahead self.new) × OperandEnded op (ahead self.new)) (HaltsAhead need self.old) }
    {
        match op {
            Connective::And => self.unit(),
            Connective::Or => self.chain(Connective::And),
        }
    }

    // A letter, 0 or 1, a negated unit, a rule in brackets, or A or E and a path part.
    #[cycle(reading)]
    fn unit(&mut self) -> Result<Rule, RuleFault>
        ensures onward { Onward self.old self.new }
        ensures reads { MatchResult result (λ f. IsUnit (ahead self.old) (formula f) (ahead self.new)) (HaltsAhead need self.old) }
    {
        match self.peek() {
            Some(Sign::Letter(mark)) => {
                self.pass();
                Ok(Rule::Literal(true, mark))
            }
            Some(Sign::Constant(value)) => {
                self.pass();
                Ok(Rule::Constant(value))
            }
            Some(Sign::Not) => {
                self.pass();
                let mut rule = self.unit()?;
                rule.negate();
                Ok(rule)
            }
            Some(Sign::Open) => {
                self.pass();
                let group = self.rule()?;
                self.close()?;
                Ok(group)
            }
            Some(Sign::Quantifier(quantifier)) => {
                self.pass();
                let asked = self.path_part()?;
                Ok(Rule::quantified(self.heap, quantifier, asked)?)
            }
            _ => Err(self.fault()),
        }
    }

    // X, F or G and a unit, or in brackets a rule, U or R, and a rule.
    #[cycle(reading)]
    fn path_part(&mut self) -> Result<PathPart, RuleFault>
        ensures onward { Onward self.old self.new }
        ensures reads { MatchResult result (λ x. IsPathPart (ahead self.old) (part_formula x) (ahead self.new)) (HaltsAhead part self.old) }
    {
        match self.peek() {
            Some(Sign::Unary(op)) => {
                self.pass();
                let rule = self.unit()?;
                Ok(PathPart::One(op, rule))
            }
            Some(Sign::Open) => {
                self.pass();
                let left = self.rule()?;
                let op = self.binary()?;
                let right = self.rule()?;
                self.close()?;
                Ok(PathPart::Two(op, left, right))
            }
            _ => Err(self.fault()),
        }
    }

    // U or R, behind a rule. It stands beside `close`, which reads one sign too: one function for both would
    // take what is looked for, what is made of it and where rules may end, and be longer than the two.
    fn binary(&mut self) -> Result<Binary, RuleFault>
        requires { Ended (ahead self.old) }
        ensures onward { Onward self.old self.new }
        ensures reads { MatchResult result (λ op. Reads (BinarySign op) (ahead self.old) (ahead self.new)) (HaltsAhead (λ σ. after (joining ∷ σ)) self.old) }
    {
        match self.peek() {
            Some(Sign::Binary(op)) => {
                self.pass();
                Ok(op)
            }
            _ => Err(self.fault()),
        }
    }

    // The bracket that closes, behind a rule.
    fn close(&mut self) -> Result<(), RuleFault>
        requires { Ended (ahead self.old) }
        ensures onward { Onward self.old self.new }
        ensures reads { MatchResult result (λ _. Reads Close (ahead self.old) (ahead self.new)) (HaltsAhead (λ σ. after (closing ∷ σ)) self.old) }
    {
        match self.peek() {
            Some(Sign::Close) => {
                self.pass();
                Ok(())
            }
            _ => Err(self.fault()),
        }
    }

    // The end of the text, behind a rule.
    fn end(&self) -> Result<(), RuleFault>
        requires { Ended (ahead self.now) }
        ensures { MatchResult result (λ _. ahead self.now ≡ []) (HaltsAhead (λ _. after []) self.now) }
    {
        match self.peek() {
            None => Ok(()),
            Some(_) => Err(self.fault()),
        }
    }
}
