// Sources as records: tables, sums and weeks, and the judging of a record of any kind.
#![tactic(auto)]

// What every source is.
pub mod allowed;
// A record of any kind, judged by its letter.
pub mod judge;
// The kinds of records.
pub mod kind;
// Eight numbers of four bytes each.
mod numbers;
// A source of any form.
pub mod source;
// The kind of sources.
pub mod source_record;
// What inputs leave unused in a body is 0.
mod spare;
// The kind of sums.
pub mod sum_record;
// Inputs with weights, and a bound.
pub mod sum_source;
// The kind of tables.
pub mod table_record;
// Inputs with a truth bit for each of their states.
pub mod table_source;
// The kind of weeks.
pub mod week_record;
// Inputs with days, and how many weeks are wanted.
pub mod week_source;

pub use allowed::{sums_allowed, tables_allowed, weeks_allowed};
pub use judge::check_record;
pub use kind::Kind;
pub use source::Source;
pub use source_record::SourceRecord;
pub use spare::spares_stand;
pub use sum_record::SumRecord;
pub use sum_source::{SumSource, Weighted};
pub use table_record::TableRecord;
pub use table_source::TableSource;
pub use week_record::WeekRecord;
pub use week_source::{Dated, WeekSource};
