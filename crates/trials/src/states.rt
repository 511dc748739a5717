// Small sets of states. They share nothing with those that the evaluator has.
use std::ops::{BitAnd, BitOr, Not};

// State s is a member if bit s is set: a trial's models have a few states only.
#[derive(Clone, Copy, PartialEq, Eq, Debug)]
pub(crate) struct States(u32);

impl States {
    pub(crate) fn none() -> States {
        States(0)
    }

    pub(crate) fn all() -> States {
        States(u32::MAX)
    }

    pub(crate) fn has(self, state: u16) -> bool {
        self.0.wrapping_shr(u32::from(state)) & 1 == 1
    }

    pub(crate) fn with(self, state: u16) -> States {
        States(self.0 | 1u32.wrapping_shl(u32::from(state)))
    }
}

impl BitAnd for States {
    type Output = States;

    fn bitand(self, other: States) -> States {
        States(self.0 & other.0)
    }
}

impl BitOr for States {
    type Output = States;

    fn bitor(self, other: States) -> States {
        States(self.0 | other.0)
    }
}

impl Not for States {
    type Output = States;

    fn not(self) -> States {
        States(!self.0)
    }
}
