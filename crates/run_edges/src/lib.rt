// Runs of rules, plans and sources: their lengths, and the places of their faults.
#![tactic(auto)]

// The runs that are tested of every kind.
#[cfg(test)]
mod run_edges;
