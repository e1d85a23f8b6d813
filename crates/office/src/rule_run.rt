// The rules of a file, added to a rulebook.
ghost use Rattle.std.specs.Prelude.{◌≡◌, ℕ, ◌*◌, length, OnOk};
ghost use Rattle.office.specs.Added.{AddedRun};

use crate::office_fault::{OfficeFault, of_book};
use crate::runs::Runs;
use rulebook::Rulebook;

pub(crate) fn add_rules(book: &mut Rulebook, runs: &Runs<'_>) -> Result<(), OfficeFault>
    ensures { OnOk result (((n : ℕ) → length runs.now.rules.now ≡ 48 * n → AddedRun runs.now.rules.now book.old.rows.items book.new.rows.items)) }
{
    let Runs { file, rules, .. } = *runs;
    let (records, _) = rules.as_chunks::<48>();
    for (place, record) in records.iter().enumerate() {
        book.add(record)
            .map_err(|fault| of_book(fault, file, place))?;
    }
    Ok(())
}
