// What is told of a lawful file: how many states its rows have, and how many rules there are.
ghost use Rattle.channel.specs.Steps.{SummaryOr};

use crate::fault::FileFault;
use crate::parts::split;
use crate::rules::read_rules;
use model::Model;
use rows::row_model::RowModel;
use std::alloc::Global;

#[derive(Clone, Copy)]
pub(crate) struct Summary {
    pub(crate) states: u16,
    pub(crate) rules: usize,
}

pub(crate) fn summary_of(heap: Global, file: &[u8]) -> Result<Summary, FileFault>
    ensures { SummaryOr file.now result }
{
    let parts = split(file)?;
    let mut model = RowModel::new(heap)?;
    model.fill(heap, parts.rows)?;
    if !model.has_start() {
        return Err(FileFault::NoStart);
    }
    let states = model.count();
    let rules = read_rules(heap, parts.rules, parts.rows.len())?;
    Ok(Summary { states, rules })
}
