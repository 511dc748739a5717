// A reader that walks over the caller's bytes and keeps its place, with the heap for the trees that it
// reads. It always stands at a sign that is no space, or at the end of the text; what it cannot take,
// it refuses at that place. A reader of its own beside the one of row texts: they share fields and no step.
ghost use Rattle.std.specs.Prelude.{◌≤◌, length, drop};
ghost use Rattle.rule_reader.specs.Halts.{Clear};
ghost use Rattle.rule.specs.declared.sign.Sign.TheVariants.{Space};

mod parts;
mod step;

use std::alloc::Global;

#[derive(Drop)]
pub(crate) struct Reader<'a> {
    heap: Global,
    text: &'a [u8],
    at: usize,
    ghost within: { at ≤ length text.now },
    ghost solid: { Clear Space (drop at text.now) },
}
