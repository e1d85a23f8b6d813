// The line of a bad file.
ghost use Rattle.lines.specs.Padded.{Answered};
ghost use Rattle.lines.specs.Said.{line_bytes, bad_file};
ghost use Rattle.office.specs.Faults.{fault_name, place_of};

use crate::file_fault::FileFault;
use judge::CallFault;
use lines::{File, Report, write_line};

// Writes the line of a bad file, with zeros after it; the line's length, the last byte counted.
pub fn write_bad_file_line(
    file: File,
    fault: FileFault,
    place: &mut [u8],
) -> Result<usize, CallFault>
    ensures { Answered (line_bytes (bad_file file (fault_name fault).number (place_of fault) (fault_name fault).byte)) place.old result place.new }
{
    let report = Report::BadFile {
        file,
        place: fault.place(),
        named: fault.named(),
    };
    write_line(&report, place)
}
