// A refused rule line: where it begins, and why.
ghost use Rattle.std.specs.Prelude.{◌+◌, ◌^◌, ◌<◌};
ghost use Rattle.channel.specs.RuleLines.{cause_place};

use crate::cause::Cause;

// The line begins at `front`; the fault's place is counted from there.
#[derive(Clone, Copy, PartialEq, Eq, Debug)]
pub struct LineFault {
    pub(crate) front: usize,
    pub(crate) cause: Cause,
    ghost small: { front + cause_place cause < 2 ^ 64 },
}
