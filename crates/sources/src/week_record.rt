// The kind of week sources.
ghost use Rattle.std.specs.Prelude.{◌≡◌, ℕ, ◌^◌, ◌<◌, map, slice_index};
ghost use Rattle.std.specs.List.{flat_map};
ghost use Rattle.records.specs.Numbers.{le4};
ghost use Rattle.sources.specs.Weeks.{week_image, week_tail, week_fault};
ghost use Rattle.sources.specs.WeeksLemmas.{week_size, week_clean, week_single};
ghost use Rattle.std.proofs.Common.{rules};

use crate::numbers::{read_numbers, write_numbers};
use crate::spare::numbers_keep;
use crate::week_source::{Dated, WeekSource};
use records::atoms::atoms_ascend;
use records::fault::{all_are, demand};
use records::fields::{Fields, read_frame, write_frame};
use records::{Record, RecordFault};
use std::array;

pub struct WeekRecord;

const FORM: char = 'K';

// The inputs of weeks with their days.
fn dated(fields: &Fields) -> [Dated; 8]
    ensures atoms { map (λ t. t.atom) result ≡ fields.now.atoms }
    ensures body { flat_map le4 (map (λ t. t.day) result) ≡ fields.now.body }
    ensures small { (k : ℕ) → slice_index (map (λ t. t.day) result) k < 2 ^ 32 }
{
    let numbers = read_numbers(&fields.body);
    array::from_fn(|i| Dated {
        atom: fields.atoms[i],
        day: numbers[i],
    })
}

// One to eight weeks are wanted, and a week begins on one of seven days.
fn tail_keeps(tail: &[u8; 4]) -> bool
    ensures { result ≡ week_tail tail.now }
{
    matches!(tail[0], 1..=8) && tail[1] < 7 && all_are(&tail[2..], 0)
}

impl Record for WeekRecord {
    const LETTER: char = 'S';

    ghost LETTER = { 83 };

    type Decoded = WeekSource;

    ghost image = { week_image };

    ghost fault = { week_fault };

    ghost size = { λ v. week_size v };

    ghost lettered = { Prim.search rules };

    ghost clean = { λ v. week_clean v };

    ghost single = { λ v w e. week_single v w e };

    fn decode(bytes: &[u8]) -> Result<WeekSource, RecordFault> {
        let fields = read_frame(bytes, Self::LETTER as u8, FORM as u8)?;
        demand(atoms_ascend(&fields.atoms), RecordFault::Atoms)?;
        demand(numbers_keep(&fields.atoms, &fields.body), RecordFault::Body)?;
        demand(tail_keeps(&fields.tail), RecordFault::Tail)?;
        Ok(WeekSource {
            terms: dated(&fields),
            wanted: fields.tail[0],
            first: fields.tail[1],
        })
    }

    fn encode(value: &WeekSource, place: &mut [u8]) -> Result<(), RecordFault> {
        let fields = Fields {
            atoms: value.terms.map(|t| t.atom),
            body: write_numbers(&value.terms.map(|t| t.day)),
            tail: [value.wanted, value.first, 0, 0],
        };
        write_frame(place, Self::LETTER as u8, FORM as u8, &fields)
    }
}
