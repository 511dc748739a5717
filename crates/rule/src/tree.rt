// The tree that a rule is kept as: negation normal form, in which only a letter is ever negated.
ghost use Rattle.std.specs.Prelude.{◌≡◌, IfOk};
ghost use Rattle.ctl.specs.Formula.{join, path, negation, negation_part};
ghost use Rattle.rule.specs.Tree.{formula, part_formula, OneToOne};

use crate::opposite::Opposite;
use ctl::{Binary, Connective, Quantifier, Unary};
use std::alloc::{AllocError, Global};

// A rule: 0 or 1; a letter that a state carries (true) or lacks (false), by its byte; two rules joined; a path
// part under A or E. Carried or not is a bool, as a model's answer is, which it is compared with.
#[cycle(rule)]
#[derive(Drop)]
pub enum Rule {
    Constant(bool),
    Literal(bool, u8),
    Join(Connective, Box<Rule>, Box<Rule>),
    Path(Quantifier, Box<PathPart>),
}

// What is asked along a path, of one rule or of two.
#[cycle(rule)]
#[derive(Drop)]
pub enum PathPart {
    One(Unary, Rule),
    Two(Binary, Rule, Rule),
}

impl Rule {
    // Two rules joined.
    pub fn joined(heap: Global, op: Connective, left: Rule, right: Rule) -> Result<Rule, AllocError>
        ensures { IfOk result (λ f. formula f ≡ join op (formula left) (formula right)) }
    {
        let left = Box::new(heap, left)?;
        let right = Box::new(heap, right)?;
        Ok(Rule::Join(op, left, right))
    }

    // A path part under A or E.
    pub fn quantified(
        heap: Global,
        quantifier: Quantifier,
        asked: PathPart,
    ) -> Result<Rule, AllocError>
        ensures { IfOk result (λ f. formula f ≡ path quantifier (part_formula asked)) }
    {
        let asked = Box::new(heap, asked)?;
        Ok(Rule::Path(quantifier, asked))
    }

    // Makes the rule its negation, in place and without memory.
    #[cycle(negate_negate)]
    pub fn negate(&mut self)
        ensures { formula self.new ≡ negation (formula self.old) }
    {
        match self {
            Rule::Constant(value) => *value = !*value,
            Rule::Literal(carried, _) => *carried = !*carried,
            Rule::Join(op, left, right) => {
                *op = op.opposite();
                left.negate();
                right.negate();
            }
            Rule::Path(quantifier, asked) => {
                *quantifier = quantifier.opposite();
                asked.negate();
            }
        }
    }

    // The negation as a tree of its own. It is no clone that is then negated: what a derived `clone`
    // gives of a type that leads back to itself is not known to a proof.
    #[cycle(negated_negated)]
    pub fn negated(&self, heap: Global) -> Result<Rule, AllocError>
        ensures { IfOk result (λ n. formula n ≡ negation (formula self.now)) }
    {
        match self {
            Rule::Constant(value) => Ok(Rule::Constant(!*value)),
            Rule::Literal(carried, mark) => Ok(Rule::Literal(!*carried, *mark)),
            Rule::Join(op, left, right) => {
                let left = left.negated(heap)?;
                let right = right.negated(heap)?;
                Rule::joined(heap, op.opposite(), left, right)
            }
            Rule::Path(quantifier, asked) => {
                let asked = asked.negated(heap)?;
                Rule::quantified(heap, quantifier.opposite(), asked)
            }
        }
    }
}

impl PathPart {
    // Makes the path part its negation, in place.
    #[cycle(negate_negate)]
    fn negate(&mut self)
        ensures { part_formula self.new ≡ negation_part (part_formula self.old) }
    {
        match self {
            PathPart::One(op, rule) => {
                *op = op.opposite();
                rule.negate();
            }
            PathPart::Two(op, left, right) => {
                *op = op.opposite();
                left.negate();
                right.negate();
            }
        }
    }

    // The negation as a path part of its own.
    #[cycle(negated_negated)]
    fn negated(&self, heap: Global) -> Result<PathPart, AllocError>
        ensures { IfOk result (λ n. part_formula n ≡ negation_part (part_formula self.now)) }
    {
        match self {
            PathPart::One(op, rule) => Ok(PathPart::One(op.opposite(), rule.negated(heap)?)),
            PathPart::Two(op, left, right) => {
                let left = left.negated(heap)?;
                let right = right.negated(heap)?;
                Ok(PathPart::Two(op.opposite(), left, right))
            }
        }
    }
}

// Trees with one formula are the same tree, but for where their boxes lie in memory.
pub fn formula_is_one_to_one()
    ensures { OneToOne }
{}
