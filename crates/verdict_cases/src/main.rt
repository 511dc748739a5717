// Judges four rules on a small channel at each bound, and prints verdict and looks; the expected output is worked out by hand.
#![tactic(auto)]

use anyhow::anyhow;
use ctl::{Binary, Connective, Quantifier, Unary};
use rows::row_model::RowModel;
use rule::tree::{PathPart, Rule};
use search::budget::AboveBudget;
use std::alloc::{AllocError, Global};
use table::asked::keep;
use table::kept::Table;
use verdict::judged::{Judgement, judge};

const ROWS: &[u8] = b"*n>1\n-c>2\n-o>0,3\n-f>0\n";

// The letter, of a state that carries it.
fn letter(mark: u8) -> Rule {
    Rule::Literal(true, mark)
}

// A path part that asks F of a letter, under A or E.
fn eventually(heap: Global, quantifier: Quantifier, mark: u8) -> Result<Rule, AllocError> {
    Rule::quantified(
        heap,
        quantifier,
        PathPart::One(Unary::Eventually, letter(mark)),
    )
}

// AG(!c|AF o)
fn answered(heap: Global) -> Result<Rule, AllocError> {
    let then = eventually(heap, Quantifier::All, b'o')?;
    let or = Rule::joined(heap, Connective::Or, Rule::Literal(false, b'c'), then)?;
    Rule::quantified(heap, Quantifier::All, PathPart::One(Unary::Always, or))
}

fn judged(
    heap: Global,
    table: &Table,
    rule: &Rule,
    k: u16,
    limit: u32,
) -> Result<Result<Judgement, AboveBudget>, AllocError> {
    let negation = rule.negated(heap)?;
    Ok(judge(table, rule, &negation, k, limit))
}

fn tell(rt: HostRuntime, name: &str, table: &Table, rule: &Rule) -> anyhow::Result<()> {
    for k in 0..5u16 {
        match judged(rt.alloc(), table, rule, k, 1000)? {
            Ok(j) => println!(rt; "{name} at {k}: {} {}", j.verdict, j.looks)?,
            Err(AboveBudget) => println!(rt; "{name} at {k}: want of looks")?,
        }
    }
    Ok(())
}

// Is the rule answered at bound 3 within the limit?
fn tell_limit(rt: HostRuntime, table: &Table, rule: &Rule, limit: u32) -> anyhow::Result<()> {
    match judged(rt.alloc(), table, rule, 3, limit)? {
        Ok(_) => println!(rt; "limit {limit}: answered")?,
        Err(AboveBudget) => println!(rt; "limit {limit}: want of looks")?,
    }
    Ok(())
}

fn main(rt: HostRuntime) -> anyhow::Result<()> {
    let heap = rt.alloc();
    let mut channel = RowModel::new(heap)?;
    if channel.fill(heap, ROWS).is_err() {
        return Err(anyhow!("rows refused"));
    }
    let Some(table) = keep(&channel) else {
        return Err(anyhow!("not kept"));
    };
    let first = answered(heap)?;
    tell(rt, "AG(!c|AF o)", &table, &first)?;
    tell(
        rt,
        "EF f",
        &table,
        &eventually(heap, Quantifier::Exists, b'f')?,
    )?;
    tell(
        rt,
        "AF f",
        &table,
        &eventually(heap, Quantifier::All, b'f')?,
    )?;
    let released = PathPart::Two(Binary::Release, letter(b'o'), letter(b'n'));
    let fourth = Rule::quantified(heap, Quantifier::Exists, released)?;
    tell(rt, "E(o R n)", &table, &fourth)?;
    tell_limit(rt, &table, &first, 18)?;
    tell_limit(rt, &table, &first, 19)
}
