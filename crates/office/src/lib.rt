// An office's two files: house.ret and site.ret.
#![tactic(auto)]

// How many records of each kind a file has.
pub mod sections;
// Why a file is refused.
pub mod file_fault;
// One file, read record by record.
pub mod walk;
// A file cut into the runs of its kinds.
mod runs;
// Why an office cannot be read.
pub mod office_fault;
// The rules of a run, added to a rulebook.
mod rule_run;
// The rulebook, the oracle and the plans of both files.
pub mod office;
// Both files read into an office.
mod reading;

// The line of a bad file.
pub mod bad_file;

// Why the lines of an office are not printed.
pub mod unprinted;
// The lines of an office, written to any writer.
pub mod printing;

pub use bad_file::write_bad_file_line;
pub use file_fault::{Cause, FileFault};
pub use office::Office;
pub use office_fault::OfficeFault;
pub use printing::print_judgement;
pub use sections::Sections;
pub use unprinted::Unprinted;
