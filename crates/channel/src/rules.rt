// The rules part of a channel file, a rule to a line.
ghost use Rattle.std.specs.Prelude.{◌+◌, ◌≤◌, length};
ghost use Rattle.channel.specs.Files.{most_bytes};
ghost use Rattle.channel.specs.Steps.{Closed, LineOr, RulesOr};

use crate::cause::Cause;
use crate::line::LineFault;
use rule_reader::{MOST_RULES, read_rule};
use std::alloc::Global;
use text::lines::Lines;

// One rule line, which begins at `front` behind so many others.
fn read_line(heap: Global, line: &[u8], front: usize, laid: usize) -> Result<(), LineFault>
    requires { front ≤ most_bytes }
    ensures { LineOr front laid line.now result }
{
    if laid >= MOST_RULES {
        return Err(LineFault {
            front,
            cause: Cause::TooMany,
        });
    }
    // No `map_err`: its closure would have to ask for what keeps the fault's place small.
    match read_rule(heap, line) {
        Ok(_) => Ok(()),
        Err(fault) => Err(LineFault {
            front,
            cause: Cause::Rule(fault),
        }),
    }
}

// Reads the rule lines, which stand at `offset` of the file, and tells how many there are.
pub(crate) fn read_rules(heap: Global, rules: &[u8], offset: usize) -> Result<usize, LineFault>
    requires closed { Closed rules.now }
    requires inside { offset + length rules.now ≤ most_bytes }
    ensures { RulesOr offset rules.now result }
{
    // Counted by hand and not by `enumerate`: the count is the answer too, and would be counted twice.
    let mut laid = 0;
    for line in Lines::of(rules) {
        let front = offset + line.start;
        read_line(heap, &rules[line], front, laid)?;
        laid += 1;
    }
    Ok(laid)
}
