// What every source is, said of its inputs, its bits and its numbers.
ghost use Rattle.sources.specs.Sums.{SumsAllowed};
ghost use Rattle.sources.specs.Tables.{TablesAllowed};
ghost use Rattle.sources.specs.Weeks.{WeeksAllowed};

pub fn tables_allowed()
    ensures { TablesAllowed }
{}

pub fn sums_allowed()
    ensures { SumsAllowed }
{}

pub fn weeks_allowed()
    ensures { WeeksAllowed }
{}
