// A file cut into the runs of its kinds.
ghost use Rattle.std.specs.Prelude.{◌≡◌, ◌*◌, length};
ghost use Rattle.office.specs.Runs.{Cut, parts_of};
ghost use Rattle.office.specs.Sections.{counts_of};
ghost use Rattle.office.specs.Walk.{total};

use crate::sections::Sections;
use lines::File;

// Five runs, as `Sections` has five counts: one generic struct for both would put the counts one level below their bound.
#[derive(Clone, Copy)]
pub(crate) struct Runs<'a> {
    pub(crate) file: File,
    pub(crate) tables: &'a [u8],
    pub(crate) sums: &'a [u8],
    pub(crate) weeks: &'a [u8],
    pub(crate) rules: &'a [u8],
    pub(crate) plans: &'a [u8],
}

pub(crate) fn runs_of<'a>(file: File, sections: &Sections, bytes: &'a [u8]) -> Runs<'a>
    requires { 48 * total (counts_of sections.now) ≡ length bytes.now }
    ensures { Cut (counts_of sections.now) bytes.now (parts_of result) }
{
    let (tables, rest) = bytes.split_at(48 * sections.tables);
    let (sums, rest) = rest.split_at(48 * sections.sums);
    let (weeks, rest) = rest.split_at(48 * sections.weeks);
    let (rules, plans) = rest.split_at(48 * sections.rules);
    Runs {
        file,
        tables,
        sums,
        weeks,
        rules,
        plans,
    }
}
