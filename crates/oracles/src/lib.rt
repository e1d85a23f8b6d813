// Oracles: truths of a plan that the body of a rule can cite.
#![tactic(auto)]

// The trait, and what an oracle replies.
pub mod oracle;
// Two oracles as one.
pub mod joined;
// An oracle behind a reference.
pub mod borrowed;
// The clauses of a reply, one by one.
pub mod clauses;

pub use clauses::clauses_stand;
pub use joined::Joined;
pub use oracle::{Oracle, Reply, SOURCE_LIMIT};
