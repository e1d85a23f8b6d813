// Both round trips of one record, and a run's bytes read and written again, for any kind.
ghost use Rattle.std.specs.Prelude.{◌≡◌, Ok};
ghost use Rattle.records.specs.Faults.{unless, or_else};
ghost use Rattle.records.specs.Trips.{size_fault, kept_if, Rewritten};

use crate::fault::RecordFault;
use crate::record::Record;
use crate::run::{read_run, write_run};
use crate::run_fault::RunFault;
use std::alloc::Global;

// A value that is written and read again is the same.
pub fn reread<K: Record>(value: &K::Decoded) -> Result<K::Decoded, RecordFault>
    ensures { result ≡ Ok value.now }
{
    let mut place = [0; 48];
    K::encode(value, &mut place)?;
    K::decode(&place)
}

// A record that is accepted and written again is the same bytes.
pub fn rewrite<K: Record>(bytes: &[u8], place: &mut [u8]) -> Result<(), RecordFault>
where
    K::Decoded: Drop,
    ensures fault { result ≡ unless (or_else (K.fault bytes.now) (size_fault place.old)) tt }
    ensures bytes { place.new ≡ kept_if result bytes.now place.old }
{
    let value = K::decode(bytes)?;
    K::encode(&value, place)
}

// The same of a run.
pub fn rewrite_run<K: Record>(heap: Global, bytes: &[u8], place: &mut [u8]) -> Result<(), RunFault>
where
    K::Decoded: Drop,
    ensures { Rewritten K.fault bytes.now place.old place.new result }
{
    let values = read_run::<K>(heap, bytes)?;
    write_run::<K>(&values, place)
}
