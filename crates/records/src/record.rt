// What every kind of record has: a letter, a decoded form, and its own tests.
ghost use Rattle.std.specs.Prelude.{◌≡◌, ℕ, List, length, IfOk, if◌then◌else◌, None, Option, ◌==◌, nat_eq, slice_index};
ghost use Rattle.records.specs.declared.fault.RecordFault.{RecordFault};
ghost use Rattle.records.specs.declared.fault.RecordFault.TheVariants.{Size};
ghost use Rattle.records.specs.Faults.{fault_in, demanded};

use crate::fault::RecordFault;

pub trait Record {
    const LETTER: char;

    ghost LETTER: { ℕ };

    // That its values may be dropped is asked by the functions that drop one, and not of every kind.
    type Decoded;

    // The forty-eight bytes that a value is written as.
    ghost image: { Self.Decoded → List ℕ };

    // What is wrong with some bytes, if anything is.
    ghost fault: { List ℕ → Option RecordFault };

    // Each kind reads and writes by itself: one body for all would want the fields, the form and the tests of every kind as
    // members with laws of their own, and a source of any form has none of them.
    fn decode(bytes: &[u8]) -> Result<Self::Decoded, RecordFault>
        ensures fault { fault_in result ≡ fault bytes.now }
        ensures value { IfOk result (λ v. image v ≡ bytes.now) };

    fn encode(value: &Self::Decoded, place: &mut [u8]) -> Result<(), RecordFault>
        ensures fault { result ≡ demanded (length place.old == 48) Size }
        ensures bytes { place.new ≡ (if nat_eq (length place.old) 48 then image value.now else place.old) };

    ghost size: { (v : Self.Decoded) → length (image v) ≡ 48 };

    ghost lettered: { (v : Self.Decoded) → slice_index (image v) 0 ≡ LETTER };

    ghost clean: { (v : Self.Decoded) → fault (image v) ≡ None };

    ghost single: { (v w : Self.Decoded) → image v ≡ image w → v ≡ w };
}
