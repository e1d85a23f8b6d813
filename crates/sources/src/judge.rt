// A record of any kind, judged by its letter.
ghost use Rattle.std.specs.Prelude.{◌≡◌};
ghost use Rattle.sources.specs.Judged.{kind_of};

use crate::kind::Kind;
use crate::source_record::SourceRecord;
use records::fault::demand;
use records::{PlanRecord, Record, RecordFault, RuleRecord};

// The kind of a record that keeps its kind's rules.
pub fn check_record(bytes: &[u8]) -> Result<Kind, RecordFault>
    ensures { result ≡ kind_of bytes.now }
{
    demand(bytes.len() == 48, RecordFault::Size)?;
    match bytes[0] as char {
        'S' => SourceRecord::decode(bytes).map(|source| source.kind()),
        'R' => RuleRecord::decode(bytes).map(|_| Kind::Rule),
        'C' => PlanRecord::decode(bytes).map(|_| Kind::Plan),
        _ => Err(RecordFault::Letter),
    }
}
