// A report as a line in a place of 160 bytes.
ghost use Rattle.std.specs.Prelude.{◌≡◌, ◌<◌, ◌≤◌, ◌++◌, map, length, decimal};
ghost use Rattle.std.specs.List.{flat_map};
ghost use Rattle.plans.specs.Bits.{marked};
ghost use Rattle.lines.specs.Padded.{Answered};
ghost use Rattle.lines.specs.Reports.{said};
ghost use Rattle.lines.specs.Said.{fields, line_bytes, members, parted, spaced, bad_file};
ghost use Rattle.lines.specs.declared.report.Report.TheVariants.{Plan};

use crate::few_atoms::FewAtoms;
use crate::report::{File, Outcome, Report};
use crate::words::Line;
use arrayvec::ArrayString;
use judge::CallFault;
use records::Named;

fn write_atoms(line: &mut Line, atoms: &FewAtoms)
    requires { length line.old.text.bytes ≤ 40 }
    ensures { line.new.text.bytes ≡ line.old.text.bytes ++ flat_map spaced (map decimal (members (marked atoms.now.bits))) }
{
    for atom in (0..255u8).filter(|atom| atoms.contains(*atom)) {
        line.number(atom);
    }
}

fn plan_line(label: u32, outcome: &Outcome) -> Line
    ensures { result.text.bytes ≡ parted (fields (said (Plan label outcome.now))) }
{
    let mut line = Line::new("plan");
    line.number(label);
    match outcome {
        Outcome::Stands => line.word("stands"),
        Outcome::Breaks { rule } => {
            line.word("breaks");
            line.number(*rule);
        }
        Outcome::Circle(atoms) => {
            line.word("circle");
            write_atoms(&mut line, atoms);
        }
        Outcome::Refused(named) => {
            line.word("refused");
            line.number(named.number);
        }
    }
    line
}

fn bad_file_line(file: File, place: usize, named: Named) -> Line
    ensures { result.text.bytes ≡ parted (fields (bad_file file named.number place named.byte)) }
{
    let mut line = Line::new(file.name());
    line.word("refused");
    line.number(named.number);
    line.word("record");
    line.number(place);
    line.word("byte");
    line.number(named.byte);
    line
}

fn line_of(report: &Report) -> ArrayString<160>
    ensures { result.bytes ≡ line_bytes (said report.now) }
{
    let line = match report {
        Report::Plan { label, outcome } => plan_line(*label, outcome),
        Report::BadFile { file, place, named } => bad_file_line(*file, *place, *named),
    };
    line.ended()
}

// The line of a report, with zeros after it; its length, the last byte counted.
pub fn write_line(report: &Report, place: &mut [u8]) -> Result<usize, CallFault>
    ensures { Answered (line_bytes (said report.now)) place.old result place.new }
{
    if place.len() != 160 {
        return Err(CallFault::Place);
    }
    let line = line_of(report);
    place.fill(0);
    place[..line.len()].copy_from_slice(line.as_bytes());
    Ok(line.len())
}
