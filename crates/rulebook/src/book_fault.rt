// Why a rulebook refuses a record.
ghost use Rattle.std.specs.Prelude.{◌≡◌};
ghost use Rattle.rulebook.specs.declared.book_fault.BookFault.TheVariants.{Memory, Record};
ghost use Rattle.rulebook.specs.BookFaults.{book_name};

use records::{Layer, Named, RecordFault};
use std::alloc::AllocFailed;

#[derive(Clone, Copy, Debug, PartialEq, Eq)]
pub enum BookFault {
    Memory,
    Record(RecordFault),
    // There are 256 rules already.
    Full,
}

impl BookFault {
    // None for want of memory, which has no number.
    pub fn named(self) -> Option<Named>
        ensures { result ≡ book_name self }
    {
        match self {
            BookFault::Memory => None,
            BookFault::Record(fault) => Some(fault.named()),
            BookFault::Full => Some(Named {
                layer: Layer::Book,
                number: 21,
                byte: 0,
            }),
        }
    }
}

impl From<RecordFault> for BookFault {
    ghost from_gives = { λ e r. r ≡ Record e };

    fn from(fault: RecordFault) -> BookFault {
        BookFault::Record(fault)
    }
}

impl<T: Drop> From<AllocFailed<T>> for BookFault {
    ghost from_gives = { λ _ r. r ≡ Memory };

    fn from(_e: AllocFailed<T>) -> BookFault {
        BookFault::Memory
    }
}
