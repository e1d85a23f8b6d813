// Faults of a file: of its length, of one of its records, or for want of memory.
ghost use Rattle.std.specs.Prelude.{◌≡◌};
ghost use Rattle.records.specs.RunFaults.{run_fault_name, place_of};
ghost use Rattle.records.specs.declared.run_fault.RunFault.TheVariants.{Memory, Record};

use crate::fault::{Layer, Named, RecordFault};
use std::alloc::{AllocError, AllocFailed};

// A record's fault, with the record's place in its file.
#[derive(Clone, Copy, Debug, PartialEq, Eq)]
pub struct Placed {
    pub fault: RecordFault,
    pub place: usize,
}

#[derive(Clone, Copy, Debug, PartialEq, Eq)]
pub enum RunFault {
    Memory,
    Run,
    Record(Placed),
}

impl RunFault {
    // None for want of memory, which has no number.
    pub fn named(self) -> Option<Named>
        ensures { result ≡ run_fault_name self }
    {
        match self {
            RunFault::Memory => None,
            RunFault::Run => Some(Named {
                layer: Layer::File,
                number: 1,
                byte: 0,
            }),
            RunFault::Record(p) => Some(p.fault.named()),
        }
    }

    pub fn place(self) -> usize
        ensures { result ≡ place_of self }
    {
        match self {
            RunFault::Memory => 0,
            RunFault::Run => 0,
            RunFault::Record(p) => p.place,
        }
    }
}

impl From<Placed> for RunFault {
    ghost from_gives = { λ p r. r ≡ Record p };

    fn from(placed: Placed) -> RunFault {
        RunFault::Record(placed)
    }
}

impl From<AllocError> for RunFault {
    ghost from_gives = { λ _ r. r ≡ Memory };

    fn from(_e: AllocError) -> RunFault {
        RunFault::Memory
    }
}

impl<T: Drop> From<AllocFailed<T>> for RunFault {
    ghost from_gives = { λ _ r. r ≡ Memory };

    fn from(_refused: AllocFailed<T>) -> RunFault {
        Self::Memory
    }
}
