// The lines of an office, written to any writer.
ghost use Rattle.std.specs.Prelude.{◌≡◌, ℕ, List, OnOk, None, Err};
ghost use Rattle.std.specs.Io.KnownBytes.{Appends};
ghost use Rattle.office.specs.declared.unprinted.Unprinted.TheVariants.{Memory};
ghost use Rattle.office.specs.Bad.{bad_office};
ghost use Rattle.office.specs.Printed.{plan_lines, Printed};

use crate::bad_file::write_bad_file_line;
use crate::office::Office;
use crate::office_fault::OfficeFault;
use crate::unprinted::Unprinted;
use lines::write_plan_line;
use std::alloc::Global;
use std::io;
use std::io::Write;

fn print_plans<W: Write>(office: &Office, out: &mut W) -> io::Result<()>
    ensures { OnOk result (Appends (W.contents out.old) (W.contents out.new) (plan_lines office.now)) }
{
    for plan in &office.plans {
        let mut place = [0; 160];
        match write_plan_line(&office.book, &office.oracle, plan, &mut place) {
            Ok(len) => out.write_all(&place[..len])?,
            Err(_) => unreachable!(),
        }
    }
    Ok(())
}

// Judges the plans of two files and writes a line for each, or the line of the file that is bad. Where the memory to read
// them is wanting nothing is written, and no file is bad.
pub fn print_judgement<W: Write>(
    heap: Global,
    house: &[u8],
    site: &[u8],
    out: &mut W,
) -> Result<(), Unprinted>
    ensures lines { OnOk result ((bs : List ℕ) × Printed house.now site.now bs × Appends (W.contents out.old) (W.contents out.new) bs) }
    ensures memory { result ≡ Err Memory → (bad_office house.now site.now ≡ None) × (W.contents out.new ≡ W.contents out.old) }
{
    match Office::read(heap, house, site) {
        Ok(office) => print_plans(&office, out)?,
        Err(OfficeFault::Memory) => return Err(Unprinted::Memory),
        Err(OfficeFault::Bad { file, fault }) => {
            let mut place = [0; 160];
            match write_bad_file_line(file, fault, &mut place) {
                Ok(len) => out.write_all(&place[..len])?,
                Err(_) => unreachable!(),
            }
        }
    }
    Ok(())
}
