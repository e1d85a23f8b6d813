// Both files read into an office.
ghost use Rattle.std.specs.Prelude.{◌≡◌, ℕ, IfOk, Some, Err};
ghost use Rattle.std.specs.List.{flat_map};
ghost use Rattle.office.specs.Bad.{bad_office, Refusal};
ghost use Rattle.office.specs.Runs.{parts_of};
ghost use Rattle.office.specs.Held.{SourcesHeld, Built, OfficeHeld};

use crate::office::{FileOracle, Office};
use crate::office_fault::{OfficeFault, in_file, of_run};
use crate::rule_run::add_rules;
use crate::runs::{Runs, runs_of};
use crate::sections::Sections;
use crate::walk::read_sections;
use lines::File;
use oracles::Joined;
use record_oracles::{SumOracle, TableOracle, WeekOracle};
use records::{PlanRecord, Record, read_run};
use rulebook::Rulebook;
use sources::{SumRecord, TableRecord, WeekRecord};
use std::alloc::Global;

// The records of a run of one kind.
pub(crate) fn read_records<K: Record>(
    heap: Global,
    run: &[u8],
    file: File,
) -> Result<Vec<K::Decoded>, OfficeFault>
where
    K::Decoded: Drop,
    ensures { IfOk result (λ v. flat_map K.image v.items ≡ run.now) }
{
    read_run::<K>(heap, run).map_err(|fault| of_run(fault, file))
}

// The sources of one file.
pub(crate) fn file_oracle(heap: Global, runs: &Runs<'_>) -> Result<FileOracle, OfficeFault>
    ensures { IfOk result (λ o. SourcesHeld o (parts_of runs.now)) }
{
    let tables = read_records::<TableRecord>(heap, runs.tables, runs.file)?;
    let sums = read_records::<SumRecord>(heap, runs.sums, runs.file)?;
    let weeks = read_records::<WeekRecord>(heap, runs.weeks, runs.file)?;
    Ok(Joined {
        first: TableOracle::new(tables),
        second: Joined {
            first: SumOracle::new(sums),
            second: WeekOracle::new(weeks),
        },
    })
}

fn build(heap: Global, house: &Runs<'_>, site: &Runs<'_>) -> Result<Office, OfficeFault>
    ensures { IfOk result (λ o. Built (parts_of house.now) (parts_of site.now) o) }
{
    let mut book = Rulebook::new(heap);
    add_rules(&mut book, house)?;
    add_rules(&mut book, site)?;
    let first = file_oracle(heap, house)?;
    let second = file_oracle(heap, site)?;
    let plans = read_records::<PlanRecord>(heap, site.plans, site.file)?;
    Ok(Office {
        book,
        oracle: Joined { first, second },
        plans,
    })
}

impl Office {
    // The house file is looked at first; where it is bad the site file does not matter.
    pub fn read(heap: Global, house: &[u8], site: &[u8]) -> Result<Office, OfficeFault>
        ensures bad { (e : Refusal) → bad_office house.now site.now ≡ Some e → result ≡ Err e }
        ensures held { IfOk result (λ o. OfficeHeld house.now site.now o) }
    {
        let before = Sections::none();
        let first = read_sections(File::House, &before, house).map_err(|fault| in_file(
            fault,
            File::House,
        ))?;
        let second = read_sections(File::Site, &first, site).map_err(|fault| in_file(
            fault,
            File::Site,
        ))?;
        build(
            heap,
            &runs_of(File::House, &first, house),
            &runs_of(File::Site, &second, site),
        )
    }
}
