// Sets of atoms, and plans that leave atoms open.
#![tactic(auto)]

// A set of atoms as thirty-two bytes of plan bits.
pub mod atom_set;
// Atoms that are in, out or open.
pub mod partial_plan;
// The atoms of a plan that do not stay, as a set.
mod removal;

pub use atom_set::{AtomSet, bit_in, bits_read, is_marked};
pub use partial_plan::{PartialPlan, Status};
