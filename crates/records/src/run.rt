// One reader and one writer for the runs of every kind of record.
ghost use Rattle.std.specs.Prelude.{◌≡◌, ◌/◌, false, length, if◌then◌else◌, IfSome, Ok, Err};
ghost use Rattle.std.specs.List.{flat_map};
ghost use Rattle.std.specs.Option.{is_none};
ghost use Rattle.records.specs.declared.run_fault.RunFault.TheVariants.{Run};
ghost use Rattle.records.specs.Runs.{bad_run, records_in, ReadRun, RunsJudged, RunsStand, ReadBack, Decided, count_of, place_fits};

use crate::record::Record;
use crate::run_fault::{Placed, RunFault};
use std::alloc::Global;

// The records of a run, unless its length is out of order.
pub fn records_of(bytes: &[u8]) -> Option<&[[u8; 48]]>
    ensures refused { is_none result ≡ bad_run bytes.now }
    ensures records { IfSome result (λ records. records.now ≡ records_in bytes.now) }
    ensures count { IfSome result (λ records. length records.now ≡ length bytes.now / 48) }
{
    let (records, rest) = bytes.as_chunks::<48>();
    if !rest.is_empty() || records.len() > 512 {
        return None;
    }
    Some(records)
}

pub fn read_run<K: Record>(heap: Global, bytes: &[u8]) -> Result<Vec<K::Decoded>, RunFault>
where
    K::Decoded: Drop,
    ensures { ReadRun K.image K.fault bytes.now result }
{
    let records = records_of(bytes).ok_or(RunFault::Run)?;
    let mut out = Vec::new(heap);
    for (place, record) in records.iter().enumerate() {
        let value = K::decode(record).map_err(|fault| Placed { fault, place })?;
        out.push(value)?;
    }
    Ok(out)
}

pub fn write_run<K: Record>(values: &[K::Decoded], place: &mut [u8]) -> Result<(), RunFault>
    ensures fault { result ≡ (if place_fits (length values.now) (length place.old) then Ok tt else Err Run) }
    ensures bytes { place.new ≡ (if place_fits (length values.now) (length place.old) then flat_map K.image values.now else place.old) }
{
    let count = values.len();
    if count > 512 || place.len() / 48 != count || place.len() % 48 != 0 {
        return Err(RunFault::Run);
    }
    // The library does not say what chunks that are written leave behind, so each record's place is cut by its number.
    for (i, value) in values.iter().enumerate() {
        let start = 48 * i;
        K::encode(value, &mut place[start..start + 48]).map_err(|fault| Placed {
            fault,
            place: i,
        })?;
    }
    Ok(())
}

// What is written is read back, and a run has one reading.
pub fn runs_stand<K: Record>()
    ensures { RunsStand K.image K.fault }
{}

// Writes a run and reads it again: the same values, unless memory or the place fails. The place keeps what was written.
pub fn read_back<K: Record>(
    heap: Global,
    values: &[K::Decoded],
    place: &mut [u8],
) -> Result<Vec<K::Decoded>, RunFault>
where
    K::Decoded: Drop,
    ensures values { ReadBack values.now (length place.old) result }
    ensures misfit { place_fits (length values.now) (length place.old) ≡ false → result ≡ Err Run }
    ensures bytes { place.new ≡ (if place_fits (length values.now) (length place.old) then flat_map K.image values.now else place.old) }
{
    write_run::<K>(values, place)?;
    read_run::<K>(heap, place)
}

// How many records a run has. It takes no memory, so its answer is decided.
pub fn check_run<K: Record>(bytes: &[u8]) -> Result<usize, RunFault>
where
    K::Decoded: Drop,
    ensures { result ≡ count_of K.fault bytes.now }
{
    let records = records_of(bytes).ok_or(RunFault::Run)?;
    for (place, record) in records.iter().enumerate() {
        let _ = K::decode(record).map_err(|fault| Placed { fault, place })?;
    }
    Ok(records.len())
}

// The clauses of `decode` leave it one answer.
pub fn decoding_decided<K: Record>()
    ensures { Decided K.image K.fault }
{}

// What the judgement of a run says, in words.
pub fn runs_judged()
    ensures { RunsJudged }
{}
