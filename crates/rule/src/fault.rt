// Why a rule text is refused.
ghost use Rattle.std.specs.Prelude.{◌≡◌};
ghost use Rattle.rule.specs.Faults.{number, place};
ghost use Rattle.rule.specs.declared.fault.RuleFault.TheVariants.{Memory};

use std::alloc::{AllocError, AllocFailed};

// The questions that a text may fail, each with the text's reach where it has one; or there was no
// memory to keep the tree.
#[derive(Clone, Copy, PartialEq, Eq, Debug)]
pub enum RuleFault {
    // The text is empty or longer than a rule may be.
    Length,
    // The byte at the reach is no sign.
    NoSign(usize),
    // The sign at the reach cannot stand there.
    Misplaced(usize),
    // The text ends before its rule does.
    Unfinished(usize),
    // Memory ran out before the text was read to its end.
    Memory,
}

impl RuleFault {
    // The number that users know the refusal by; want of memory has none.
    pub fn number(&self) -> Option<u8>
        ensures { result ≡ number self.now }
    {
        match self {
            RuleFault::Length => Some(6),
            RuleFault::NoSign(_) => Some(7),
            RuleFault::Misplaced(_) => Some(8),
            RuleFault::Unfinished(_) => Some(9),
            RuleFault::Memory => None,
        }
    }

    // The place in the text that the refusal points at; 0 where it points at none: a listing adds it to the place
    // where its line begins.
    pub fn place(&self) -> usize
        ensures { result ≡ place self.now }
    {
        match self {
            RuleFault::Length | RuleFault::Memory => 0,
            RuleFault::NoSign(at) | RuleFault::Misplaced(at) | RuleFault::Unfinished(at) => *at,
        }
    }
}

// The two are written by hand, since clauses name the fault that a `?` makes of them.
impl From<AllocError> for RuleFault {
    ghost from_gives = { λ _ r. r ≡ Memory };

    fn from(_error: AllocError) -> Self {
        RuleFault::Memory
    }
}

impl<T: Drop> From<AllocFailed<T>> for RuleFault {
    ghost from_gives = { λ _ r. r ≡ Memory };

    fn from(_error: AllocFailed<T>) -> Self {
        RuleFault::Memory
    }
}
