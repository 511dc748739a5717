// What can be wrong with a row text, with the place of the byte where it shows.
ghost use Rattle.std.specs.Prelude.{◌≡◌};
ghost use Rattle.rowtext.specs.Faults.{number as number_of, place as place_of};
ghost use Rattle.rowtext.specs.declared.fault.RowFault.TheVariants.{Memory};

use std::alloc::{AllocError, AllocFailed};

#[derive(Clone, Copy, PartialEq, Eq, Debug)]
pub enum RowFault {
    // The text is not ended by byte 10, or has not 1 to 64 lines.
    Lines,
    // A line's first byte is neither `*` nor `-`.
    Sign(usize),
    // The byte is neither a letter above the one before it nor `>`.
    Marks(usize),
    // The target that begins here is not lawful.
    Target(usize),
    // The target that begins here is not below the count of lines.
    Beyond(usize),
    // There was no memory; the text may be lawful.
    Memory,
}

impl RowFault {
    // The number by which the fault is told; want of memory has none.
    pub fn number(&self) -> Option<u8>
        ensures { result ≡ number_of self.now }
    {
        match self {
            RowFault::Lines => Some(16),
            RowFault::Sign(_) => Some(17),
            RowFault::Marks(_) => Some(18),
            RowFault::Target(_) => Some(19),
            RowFault::Beyond(_) => Some(20),
            RowFault::Memory => None,
        }
    }

    // The byte of the text that the fault points at; 0 where it points at none, as a listing tells it.
    pub fn place(&self) -> usize
        ensures { result ≡ place_of self.now }
    {
        match self {
            RowFault::Sign(at) | RowFault::Marks(at) => *at,
            RowFault::Target(at) | RowFault::Beyond(at) => *at,
            RowFault::Lines | RowFault::Memory => 0,
        }
    }
}

// Written out, here and below: a clause names the error that `?` makes by it.
impl From<AllocError> for RowFault {
    ghost from_gives = { λ _ r. r ≡ Memory };

    fn from(_e: AllocError) -> RowFault {
        RowFault::Memory
    }
}

impl<T: Drop> From<AllocFailed<T>> for RowFault {
    ghost from_gives = { λ _ r. r ≡ Memory };

    fn from(_e: AllocFailed<T>) -> RowFault {
        RowFault::Memory
    }
}
