// One file, read record by record.
ghost use Rattle.std.specs.Prelude.{◌≡◌, ◌*◌, ◌<◌, cond, length, IfOk, Some, None};
ghost use Rattle.records.specs.Faults.{unless};
ghost use Rattle.sources.specs.Judged.{kind_of};
ghost use Rattle.office.specs.Sections.{counts_of, counted};
ghost use Rattle.office.specs.Walk.{none, sources_in, total, in_order, no_room, one_more, stepped, file_read};

use crate::file_fault::{Cause, FileFault};
use crate::sections::Sections;
use lines::File;
use records::fault::demand;
use records::records_of;
use sources::{Kind, check_record};

impl Sections {
    pub fn none() -> Sections
        ensures { counts_of result ≡ none }
    {
        Sections {
            tables: 0,
            sums: 0,
            weeks: 0,
            rules: 0,
            plans: 0,
        }
    }

    pub fn sources(&self) -> usize
        ensures { result ≡ sources_in (counts_of self.now) }
    {
        self.tables + self.sums + self.weeks
    }

    // Whether a record of this kind may come next.
    fn in_order(&self, file: File, kind: Kind) -> bool
        ensures { result ≡ in_order file (counts_of self.now) kind }
    {
        match kind {
            Kind::Table => self.sums + self.weeks + self.rules + self.plans == 0,
            Kind::Sum => self.weeks + self.rules + self.plans == 0,
            Kind::Week => self.rules + self.plans == 0,
            Kind::Rule => self.plans == 0,
            Kind::Plan => file == File::Site,
        }
    }

    // Whether both files together have room for one more record of this kind.
    fn room(&self, before: &Sections, kind: Kind) -> Result<(), Cause>
        ensures { result ≡ unless (no_room (counts_of before.now) (counts_of self.now) kind) tt }
    {
        match kind {
            Kind::Plan => Ok(()),
            Kind::Rule => demand(before.rules + self.rules < 256, Cause::Rules),
            Kind::Table | Kind::Sum | Kind::Week => {
                demand(before.sources() + self.sources() < 64, Cause::Sources)
            }
        }
    }

    fn one_more(&self, kind: Kind) -> Sections
        requires { total (counts_of self.now) < 512 }
        ensures { counts_of result ≡ one_more (counts_of self.now) kind }
    {
        let mut next = *self;
        match kind {
            Kind::Table => next.tables += 1,
            Kind::Sum => next.sums += 1,
            Kind::Week => next.weeks += 1,
            Kind::Rule => next.rules += 1,
            Kind::Plan => next.plans += 1,
        }
        next
    }

    // The sections with one record more.
    fn step(&self, file: File, before: &Sections, bytes: &[u8]) -> Result<Sections, Cause>
        requires { total (counts_of self.now) < 512 }
        ensures { counted result ≡ stepped file (counts_of before.now) (counts_of self.now) (kind_of bytes.now) }
    {
        let kind = check_record(bytes)?;
        demand(self.in_order(file, kind), Cause::Order)?;
        self.room(before, kind)?;
        Ok(self.one_more(kind))
    }
}

// The sections of a file, where the other file had those before it; or its first fault.
pub fn read_sections(file: File, before: &Sections, bytes: &[u8]) -> Result<Sections, FileFault>
    ensures read { counted result ≡ file_read file (counts_of before.now) bytes.now }
    ensures whole { IfOk result (λ s. 48 * total (counts_of s) ≡ length bytes.now) }
{
    let records = records_of(bytes).ok_or(FileFault::Run)?;
    let mut sections = Sections::none();
    for (place, record) in records.iter().enumerate() {
        sections = sections
            .step(file, before, record)
            .map_err(|cause| FileFault::Record { place, cause })?;
    }
    Ok(sections)
}
