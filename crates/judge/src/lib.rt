// Judges plans: whether one stands, which rule it breaks, or which atoms it has no ground for.
#![tactic(auto)]

// What a check answers, and why it is refused.
pub mod verdict;
// The check of a plan.
pub mod checking;
// Whether the oracle has the sources that rules name.
mod sources;
// Which rules the plan makes true in the body, and the lowest one that it breaks.
mod reduct;
// The truth of a literal on a partial plan.
mod truth;
// What a rule asks of the open atoms.
mod ways;
// The search for the earliest unfounded set.
mod search;

pub use checking::check;
pub use verdict::{CallFault, Verdict};
