// The rules of an office, numbered from 0.
#![tactic(auto)]

// A table of up to 256 plain rows.
pub mod rulebook;
// Why a rulebook refuses a record.
pub mod book_fault;

pub use book_fault::BookFault;
pub use rulebook::Rulebook;
