// Why a call on a roster is refused.
ghost use Rattle.std.specs.Prelude.{◌≡◌};
ghost use Rattle.guarantee.specs.Faults.{number, place};
ghost use Rattle.guarantee.specs.declared.fault.RosterFault.TheVariants.{Rule, Memory};

use rule::RuleFault;
use std::alloc::{AllocError, AllocFailed};

// The questions that a call may fail, in the order in which they are put.
#[derive(Clone, Copy, PartialEq, Eq, Debug)]
pub enum RosterFault {
    // The roster is open already.
    Opened,
    // The model has no state, or more than a roster takes.
    Size,
    // No state of the model is a start.
    NoStart,
    // The roster is not open.
    Blank,
    // As many rules are laid as a roster takes.
    Full,
    // The text is refused by the reader of rule texts.
    Rule(RuleFault),
    // No rule is laid under the number.
    NotLaid,
    // The bound is above the highest that may be tried.
    Bound,
    // No verdict is recorded at or below the bound.
    NoVerdict,
    // The root of the rule has no path that would show the verdict.
    Root,
    // The buffer has no room for the path.
    Room,
    // The evaluation costs more looks than the limit.
    Looks,
    // Memory ran out.
    Memory,
}

impl RosterFault {
    // The number that users know the refusal by; want of memory has none.
    pub fn number(&self) -> Option<u8>
        ensures { result ≡ number self.now }
    {
        match self {
            RosterFault::Opened => Some(1),
            RosterFault::Size => Some(2),
            RosterFault::NoStart => Some(3),
            RosterFault::Blank => Some(4),
            RosterFault::Full => Some(5),
            RosterFault::Rule(fault) => fault.number(),
            RosterFault::NotLaid => Some(10),
            RosterFault::Bound => Some(11),
            RosterFault::NoVerdict => Some(12),
            RosterFault::Root => Some(13),
            RosterFault::Room => Some(14),
            RosterFault::Looks => Some(15),
            RosterFault::Memory => None,
        }
    }

    // The place in a rule text that the refusal points at; 0 where it points at none, as `RuleFault::place` has it.
    pub fn place(&self) -> usize
        ensures { result ≡ place self.now }
    {
        match self {
            RosterFault::Rule(fault) => fault.place(),
            _ => 0,
        }
    }
}

// These conversions are written by hand: contracts say which refusal `?` makes, and a derived one says nothing of it.
// A rule's fault is carried whole, its want of memory too; where that is to be the roster's own, lay says so itself.
impl From<RuleFault> for RosterFault {
    ghost from_gives = { λ e r. r ≡ Rule e };

    fn from(fault: RuleFault) -> Self {
        RosterFault::Rule(fault)
    }
}

impl From<AllocError> for RosterFault {
    ghost from_gives = { λ _ r. r ≡ Memory };

    fn from(_error: AllocError) -> Self {
        RosterFault::Memory
    }
}

impl<T: Drop> From<AllocFailed<T>> for RosterFault {
    ghost from_gives = { λ _ r. r ≡ Memory };

    fn from(_error: AllocFailed<T>) -> Self {
        RosterFault::Memory
    }
}
