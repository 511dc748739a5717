// trials: compares the evaluator with plain listing on small random models and rules, and tells what it did.
//
// The listing follows the definitions as directly as code can: all k-paths are written out and asked, all simple paths are
// written out and counted. It shares nothing with the evaluator but the rule tree and the model's four questions.
// It is a test: that its functions are safe and end is proved, and what they answer is not.
#![tactic(auto)]

mod listing;
mod paths;
mod random;
mod states;
mod trial;

use crate::random::{Random, random_rows, random_rule};
use crate::trial::Trial;
use anyhow::anyhow;
use rows::row_model::RowModel;
use rule_reader::read_rule;
use std::alloc::Global;
use table::asked::keep;
use table::kept::Table;

const MODELS: u32 = 4000;

const RULES: u32 = 3;

const BOUNDS: u16 = 6;

// What was compared, and how often the two differed.
#[derive(Default, Drop)]
struct Tally {
    models: u32,
    rules: u32,
    bounds: u32,
    differences: u32,
}

// One rule on one model, at every bound.
fn try_rule(
    heap: Global,
    model: &RowModel,
    table: &Table,
    text: &str,
    tally: &mut Tally,
) -> anyhow::Result<()> {
    let Ok(rule) = read_rule(heap, text.as_bytes()) else {
        return Err(anyhow!("a rule was refused"));
    };
    let negation = rule.negated(heap)?;
    let trial = Trial {
        model,
        table,
        rule: &rule,
        negation: &negation,
    };
    tally.rules = tally.rules.saturating_add(1);
    for k in 0..BOUNDS {
        tally.bounds = tally.bounds.saturating_add(1);
        if !trial.agrees_at(heap, k)? {
            tally.differences = tally.differences.saturating_add(1);
        }
    }
    Ok(())
}

// One model, with some rules.
fn try_model(heap: Global, random: &mut Random, tally: &mut Tally) -> anyhow::Result<()> {
    let rows = random_rows(heap, random)?;
    let mut model = RowModel::new(heap)?;
    if model.fill(heap, rows.as_bytes()).is_err() {
        return Err(anyhow!("a row text was refused"));
    }
    let Some(table) = keep(&model) else {
        return Err(anyhow!("a model was not kept"));
    };
    tally.models = tally.models.saturating_add(1);
    for _ in 0..RULES {
        let mut text = String::new(heap);
        random_rule(random, 3, &mut text)?;
        try_rule(heap, &model, &table, text.as_str(), tally)?;
    }
    Ok(())
}

fn main(rt: HostRuntime) -> anyhow::Result<()> {
    let mut random = Random(88172645463325252);
    let mut tally = Tally::default();
    for _ in 0..MODELS {
        try_model(rt.alloc(), &mut random, &mut tally)?;
    }
    println!(rt;
        "models {} rules {} bounds compared {} differences {}",
        tally.models, tally.rules, tally.bounds, tally.differences
    )?;
    Ok(())
}
