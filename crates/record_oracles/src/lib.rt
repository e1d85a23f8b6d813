// Oracles over decoded records.
#![tactic(auto)]

// A source, and when a partial plan settles its truth.
pub mod source_truth;
// The oracle over a list of sources.
pub mod record_oracle;
// A truth bit for each way that the inputs can stand.
pub mod tables;
// A sum of weights against a bound.
pub mod sums;
// How many different weeks are visited.
pub mod weeks;
// Amounts that grow with the atoms that are in.
mod amounts;
// A partial plan whose open atoms are filled in.
mod filled;

pub use record_oracle::RecordOracle;
pub use source_truth::SourceTruth;
pub use sums::SumOracle;
pub use tables::TableOracle;
pub use weeks::{WeekOracle, weeks_stand};
