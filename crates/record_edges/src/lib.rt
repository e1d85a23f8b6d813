// Tables of edge records, one for each kind, and what its reader says of each of them.
#![tactic(auto)]

// A row of a table, and how a table is tested.
#[cfg(test)]
mod edge;
// A record of any kind.
#[cfg(test)]
mod kind_edges;
#[cfg(test)]
mod plan_edges;
#[cfg(test)]
mod rule_edges;
// Sources of any form.
#[cfg(test)]
mod source_edges;
#[cfg(test)]
mod sum_edges;
#[cfg(test)]
mod table_edges;
#[cfg(test)]
mod week_edges;
