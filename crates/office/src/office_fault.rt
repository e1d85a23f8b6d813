// Why an office cannot be read.
ghost use Rattle.std.specs.Prelude.{◌≡◌};
ghost use Rattle.office.specs.Bad.{in_file, of_run, of_book};

use crate::file_fault::{Cause, FileFault};
use lines::File;
use records::RunFault;
use rulebook::BookFault;

#[derive(Clone, Copy, Debug, PartialEq, Eq)]
pub enum OfficeFault {
    Memory,
    Bad { file: File, fault: FileFault },
}

// Names the file that a fault is of. No `From`: what a fault becomes here depends on the file, and on the record's place.
pub(crate) fn in_file(fault: FileFault, file: File) -> OfficeFault
    ensures { result ≡ in_file file fault }
{
    OfficeFault::Bad { file, fault }
}

// A run of a file that was found good can still want memory.
pub(crate) fn of_run(fault: RunFault, file: File) -> OfficeFault
    ensures { result ≡ of_run file fault }
{
    match fault {
        RunFault::Memory => OfficeFault::Memory,
        RunFault::Run => OfficeFault::Bad {
            file,
            fault: FileFault::Run,
        },
        RunFault::Record(p) => OfficeFault::Bad {
            file,
            fault: FileFault::Record {
                place: p.place,
                cause: Cause::Record(p.fault),
            },
        },
    }
}

// A rule of a file that was found good can still want memory.
pub(crate) fn of_book(fault: BookFault, file: File, place: usize) -> OfficeFault
    ensures { result ≡ of_book file place fault }
{
    let cause = match fault {
        BookFault::Memory => return OfficeFault::Memory,
        BookFault::Record(e) => Cause::Record(e),
        BookFault::Full => Cause::Rules,
    };
    OfficeFault::Bad {
        file,
        fault: FileFault::Record { place, cause },
    }
}
