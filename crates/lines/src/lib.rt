// The line that is printed for each plan, and for a bad file.
#![tactic(auto)]

// What is said of a plan or of a bad file.
pub mod report;
// At most 24 atoms, so that their line fits.
pub mod few_atoms;
// A line under way, word by word.
mod words;
// A report as a line.
pub mod line;
// A plan judged, as a line.
pub mod plan_line;

pub use few_atoms::FewAtoms;
pub use line::write_line;
pub use plan_line::write_plan_line;
pub use report::{File, Outcome, Report};
