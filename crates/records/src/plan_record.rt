// The kind of plans.
ghost use Rattle.records.specs.Plans.{plan_image, plan_fault, PlansAllowed};
ghost use Rattle.records.specs.PlansLemmas.{plan_size, plan_clean, plan_single};
ghost use Rattle.std.proofs.Common.{rules};

use crate::fault::{RecordFault, all_are, demand};
use crate::fields::{Fields, number_of, read_frame, write_frame};
use crate::plan::Plan;
use crate::record::Record;
use plans::AtomSet;

pub struct PlanRecord;

impl Record for PlanRecord {
    const LETTER: char = 'C';

    ghost LETTER = { 67 };

    type Decoded = Plan;

    ghost image = { plan_image };

    ghost fault = { plan_fault };

    ghost size = { λ v. plan_size v };

    ghost lettered = { Prim.search rules };

    ghost clean = { λ v. plan_clean v };

    ghost single = { λ v w e. plan_single v w e };

    fn decode(bytes: &[u8]) -> Result<Plan, RecordFault> {
        let fields = read_frame(bytes, Self::LETTER as u8, 0)?;
        demand(all_are(&fields.atoms, 255), RecordFault::Atoms)?;
        let label = number_of(&fields.tail);
        let marks = AtomSet::new(fields.body).ok_or(RecordFault::Body)?;
        Ok(Plan { marks, label })
    }

    fn encode(value: &Plan, place: &mut [u8]) -> Result<(), RecordFault> {
        let body = *value.marks.bytes();
        let tail = value.label.to_le_bytes();
        write_frame(
            place,
            Self::LETTER as u8,
            0,
            &Fields {
                atoms: [255; 8],
                body,
                tail,
            },
        )
    }
}

// What every plan is, said of its marks.
pub fn plans_allowed()
    ensures { PlansAllowed }
{}
