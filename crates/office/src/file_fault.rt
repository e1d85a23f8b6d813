// Why a file is refused: its length, or one of its records.
ghost use Rattle.std.specs.Prelude.{◌≡◌};
ghost use Rattle.office.specs.Faults.{cause_name, fault_name, place_of};
ghost use Rattle.office.specs.declared.file_fault.Cause.TheVariants.{Record};

use records::{Layer, Named, RecordFault};

// What is wrong with one record of a file.
#[derive(Clone, Copy, Debug, PartialEq, Eq)]
pub enum Cause {
    // By its own kind's rules.
    Record(RecordFault),
    // After a record that it should stand before, or a plan in house.ret.
    Order,
    // The 65th source of both files together.
    Sources,
    // The 257th rule of both files together.
    Rules,
}

#[derive(Clone, Copy, Debug, PartialEq, Eq)]
pub enum FileFault {
    // Not whole records, or more than 512.
    Run,
    Record { place: usize, cause: Cause },
}

impl Cause {
    pub fn named(self) -> Named
        ensures { result ≡ cause_name self }
    {
        match self {
            Cause::Record(fault) => fault.named(),
            Cause::Order => Named {
                layer: Layer::File,
                number: 11,
                byte: 0,
            },
            Cause::Sources => Named {
                layer: Layer::File,
                number: 21,
                byte: 0,
            },
            Cause::Rules => Named {
                layer: Layer::Book,
                number: 21,
                byte: 0,
            },
        }
    }
}

impl FileFault {
    pub fn named(self) -> Named
        ensures { result ≡ fault_name self }
    {
        match self {
            FileFault::Run => Named {
                layer: Layer::File,
                number: 1,
                byte: 0,
            },
            FileFault::Record { cause, .. } => cause.named(),
        }
    }

    // The place of the record, from 0; a run's length is named at place 0.
    pub fn place(self) -> usize
        ensures { result ≡ place_of self }
    {
        match self {
            FileFault::Run => 0,
            FileFault::Record { place, .. } => place,
        }
    }
}

impl From<RecordFault> for Cause {
    ghost from_gives = { λ e r. r ≡ Record e };

    fn from(fault: RecordFault) -> Cause {
        Cause::Record(fault)
    }
}
