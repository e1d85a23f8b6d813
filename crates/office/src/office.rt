// The rulebook, the oracle and the plans of both files.
use oracles::Joined;
use record_oracles::{SumOracle, TableOracle, WeekOracle};
use records::Plan;
use rulebook::Rulebook;

// A file's sources in the order in which it has them.
pub type FileOracle = Joined<TableOracle, Joined<SumOracle, WeekOracle>>;

#[derive(Drop)]
pub struct Office {
    pub book: Rulebook,
    // House sources are numbered first, as house rules are.
    pub oracle: Joined<FileOracle, FileOracle>,
    pub plans: Vec<Plan>,
}
