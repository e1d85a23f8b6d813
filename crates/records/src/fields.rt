// The fields of a record, read and written together.
ghost use Rattle.std.specs.Prelude.{◌≡◌, length, if◌then◌else◌, ◌==◌, nat_eq};
ghost use Rattle.records.specs.declared.fault.RecordFault.TheVariants.{Size};
ghost use Rattle.records.specs.Faults.{demanded, first_fault, unless};
ghost use Rattle.records.specs.Frames.{frame, fields_of, mark_tests, frame_fault};
ghost use Rattle.records.specs.Numbers.{le4};

use crate::fault::{RecordFault, demand, demand_all, part_of};

#[derive(Clone, Copy, Debug, PartialEq, Eq)]
pub struct Fields {
    pub atoms: [u8; 8],
    pub body: [u8; 32],
    pub tail: [u8; 4],
}

// The tests that every kind has, after that of the length. No plainer with a struct of letter and form: one more type for three functions.
fn check_frame(bytes: &[u8; 48], letter: u8, form: u8) -> Result<(), RecordFault>
    ensures { result ≡ unless (first_fault (mark_tests letter form bytes.now)) tt }
{
    demand_all(bytes, RecordFault::Letter, letter)?;
    demand_all(bytes, RecordFault::Form, form)?;
    demand_all(bytes, RecordFault::Zero, 0)
}

fn split(bytes: &[u8; 48]) -> Fields
    ensures { result ≡ fields_of bytes.now }
{
    Fields {
        atoms: *part_of(bytes, RecordFault::Atoms).as_array().unwrap(),
        body: *part_of(bytes, RecordFault::Body).as_array().unwrap(),
        tail: *part_of(bytes, RecordFault::Tail).as_array().unwrap(),
    }
}

// The fields of a record of a letter and a form.
pub fn read_frame(bytes: &[u8], letter: u8, form: u8) -> Result<Fields, RecordFault>
    ensures { result ≡ unless (frame_fault letter form bytes.now) (fields_of bytes.now) }
{
    let record = bytes.as_array::<48>().ok_or(RecordFault::Size)?;
    check_frame(record, letter, form)?;
    Ok(split(record))
}

// Writes a record of a letter and a form, where the place has its length.
pub fn write_frame(
    place: &mut [u8],
    letter: u8,
    form: u8,
    fields: &Fields,
) -> Result<(), RecordFault>
    ensures fault { result ≡ demanded (length place.old == 48) Size }
    ensures bytes { place.new ≡ (if nat_eq (length place.old) 48 then frame letter form fields.now else place.old) }
{
    demand(place.len() == 48, RecordFault::Size)?;
    place[0..4].copy_from_slice(&[letter, form, 0, 0]);
    place[4..12].copy_from_slice(&fields.atoms);
    place[12..44].copy_from_slice(&fields.body);
    place[44..48].copy_from_slice(&fields.tail);
    Ok(())
}

// The number that four bytes write, the lowest first.
pub fn number_of(bytes: &[u8; 4]) -> u32
    ensures { le4 result ≡ bytes.now }
{
    u32::from_le_bytes(*bytes)
}
