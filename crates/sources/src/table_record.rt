// The kind of table sources.
ghost use Rattle.std.specs.Prelude.{◌≡◌};
ghost use Rattle.sources.specs.Tables.{table_image, table_fault};
ghost use Rattle.sources.specs.TablesLemmas.{table_size, table_clean, table_single};
ghost use Rattle.std.proofs.Common.{rules};

use crate::spare::bits_keep;
use crate::table_source::TableSource;
use records::atoms::atoms_ascend;
use records::fault::{all_are, demand};
use records::fields::{Fields, read_frame, write_frame};
use records::{Record, RecordFault};

pub struct TableRecord;

const FORM: char = 'T';

impl Record for TableRecord {
    const LETTER: char = 'S';

    ghost LETTER = { 83 };

    type Decoded = TableSource;

    ghost image = { table_image };

    ghost fault = { table_fault };

    ghost size = { λ v. table_size v };

    ghost lettered = { Prim.search rules };

    ghost clean = { λ v. table_clean v };

    ghost single = { λ v w e. table_single v w e };

    fn decode(bytes: &[u8]) -> Result<TableSource, RecordFault> {
        let fields = read_frame(bytes, Self::LETTER as u8, FORM as u8)?;
        demand(atoms_ascend(&fields.atoms), RecordFault::Atoms)?;
        demand(bits_keep(&fields.atoms, &fields.body), RecordFault::Body)?;
        demand(all_are(&fields.tail, 0), RecordFault::Tail)?;
        Ok(TableSource {
            inputs: fields.atoms,
            bits: fields.body,
        })
    }

    fn encode(value: &TableSource, place: &mut [u8]) -> Result<(), RecordFault> {
        let fields = Fields {
            atoms: value.inputs,
            body: value.bits,
            tail: [0; 4],
        };
        write_frame(place, Self::LETTER as u8, FORM as u8, &fields)
    }
}
