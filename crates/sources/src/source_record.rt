// The kind of sources: the form byte says which of the three it is.
ghost use Rattle.sources.specs.Sources.{source_image, source_fault};
ghost use Rattle.sources.specs.SourcesLemmas.{source_size, source_lettered, source_clean, source_single};

use crate::source::Source;
use crate::sum_record::SumRecord;
use crate::table_record::TableRecord;
use crate::week_record::WeekRecord;
use records::fault::demand;
use records::{Record, RecordFault};

pub struct SourceRecord;

impl Record for SourceRecord {
    const LETTER: char = 'S';

    ghost LETTER = { 83 };

    type Decoded = Source;

    ghost image = { source_image };

    ghost fault = { source_fault };

    ghost size = { λ v. source_size v };

    ghost lettered = { λ v. source_lettered v };

    ghost clean = { λ v. source_clean v };

    ghost single = { λ v w e. source_single v w e };

    fn decode(bytes: &[u8]) -> Result<Source, RecordFault> {
        demand(bytes.len() == 48, RecordFault::Size)?;
        match bytes[1] as char {
            'T' => TableRecord::decode(bytes).map(Source::Table),
            'W' => SumRecord::decode(bytes).map(Source::Sum),
            'K' => WeekRecord::decode(bytes).map(Source::Week),
            _ if bytes[0] == Self::LETTER as u8 => Err(RecordFault::Form),
            _ => Err(RecordFault::Letter),
        }
    }

    fn encode(value: &Source, place: &mut [u8]) -> Result<(), RecordFault> {
        match value {
            Source::Table(source) => TableRecord::encode(source, place),
            Source::Sum(source) => SumRecord::encode(source, place),
            Source::Week(source) => WeekRecord::encode(source, place),
        }
    }
}
