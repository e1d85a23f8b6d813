// The kind of sum sources.
ghost use Rattle.std.specs.Prelude.{◌≡◌, ℕ, ◌^◌, ◌<◌, map, slice_index};
ghost use Rattle.std.specs.List.{flat_map};
ghost use Rattle.records.specs.Numbers.{le4};
ghost use Rattle.sources.specs.Sums.{sum_image, sum_fault};
ghost use Rattle.sources.specs.SumsLemmas.{sum_size, sum_clean, sum_single};
ghost use Rattle.std.proofs.Common.{rules};

use crate::numbers::{read_numbers, write_numbers};
use crate::spare::numbers_keep;
use crate::sum_source::{SumSource, Weighted};
use records::atoms::atoms_ascend;
use records::fault::demand;
use records::fields::{Fields, number_of, read_frame, write_frame};
use records::{Record, RecordFault};
use std::array;

pub struct SumRecord;

const FORM: char = 'W';

// A sum's inputs with their weights. `dated` does the same for weeks: a trait for both would be longer than the two.
fn weighted(fields: &Fields) -> [Weighted; 8]
    ensures atoms { map (λ t. t.atom) result ≡ fields.now.atoms }
    ensures body { flat_map le4 (map (λ t. t.weight) result) ≡ fields.now.body }
    ensures small { (k : ℕ) → slice_index (map (λ t. t.weight) result) k < 2 ^ 32 }
{
    let numbers = read_numbers(&fields.body);
    array::from_fn(|i| Weighted {
        atom: fields.atoms[i],
        weight: numbers[i],
    })
}

impl Record for SumRecord {
    const LETTER: char = 'S';

    ghost LETTER = { 83 };

    type Decoded = SumSource;

    ghost image = { sum_image };

    ghost fault = { sum_fault };

    ghost size = { λ v. sum_size v };

    ghost lettered = { Prim.search rules };

    ghost clean = { λ v. sum_clean v };

    ghost single = { λ v w e. sum_single v w e };

    fn decode(bytes: &[u8]) -> Result<SumSource, RecordFault> {
        let fields = read_frame(bytes, Self::LETTER as u8, FORM as u8)?;
        demand(atoms_ascend(&fields.atoms), RecordFault::Atoms)?;
        demand(numbers_keep(&fields.atoms, &fields.body), RecordFault::Body)?;
        Ok(SumSource {
            terms: weighted(&fields),
            bound: number_of(&fields.tail),
        })
    }

    fn encode(value: &SumSource, place: &mut [u8]) -> Result<(), RecordFault> {
        let fields = Fields {
            atoms: value.terms.map(|t| t.atom),
            body: write_numbers(&value.terms.map(|t| t.weight)),
            tail: value.bound.to_le_bytes(),
        };
        write_frame(place, Self::LETTER as u8, FORM as u8, &fields)
    }
}
