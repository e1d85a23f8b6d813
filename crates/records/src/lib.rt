// Records of forty-eight bytes: faults, fields, the interface of a kind, rules and plans, and runs of any kind.
#![tactic(auto)]

// Atom lists that ascend.
pub mod atoms;
// Faults of a record, and the table of the fields that they name.
pub mod fault;
// The fields of a record, read and written together.
pub mod fields;
// Faults of a file of records.
pub mod run_fault;
// The literals of a rule's body.
pub mod literal;
// A plan that its record's rules allow.
pub mod plan;
// The kind of plans.
pub mod plan_record;
// What every kind of record has.
pub mod record;
// A rule as a plain row.
pub mod row;
// A rule that its record's rules allow.
pub mod rule;
// The kind of rules.
pub mod rule_record;
// Both round trips of a record, and a run's bytes read and written again.
pub mod round_trip;
// One reader and one writer for the runs of every kind.
pub mod run;

pub use atoms::lists_stand;
pub use fault::{Layer, Named, RecordFault};
pub use literal::Literal;
pub use plan::Plan;
pub use plan_record::{PlanRecord, plans_allowed};
pub use record::Record;
pub use round_trip::{reread, rewrite, rewrite_run};
pub use row::RuleRow;
pub use rule::Rule;
pub use rule_record::{RuleRecord, bodies_stand, literals_stand, rules_allowed};
pub use run::{
    check_run, decoding_decided, read_back, read_run, records_of, runs_judged, runs_stand,
    write_run,
};
pub use run_fault::{Placed, RunFault};
