// The table oracle: a source's truth is the bit whose index its inputs that are in spell.
ghost use Rattle.std.specs.Prelude.{◌^◌, ◌<◌, ◌≤◌, Decides};
ghost use Rattle.record_oracles.specs.Tables.{Reaches, table_truth};

use crate::record_oracle::RecordOracle;
use crate::source_truth::SourceTruth;
use plans::{PartialPlan, Status, bit_in};
use sources::TableSource;

pub type TableOracle = RecordOracle<TableSource>;

// A search for the bit among the truths that the plan leaves possible.
#[derive(Clone, Copy)]
struct BitSearch<'a> {
    source: &'a TableSource,
    plan: &'a PartialPlan,
    bit: bool,
}

impl<'a> BitSearch<'a> {
    // Whether the inputs from a place on can still complete the index to one with this bit. Only an open input has two ways.
    #[tactic(auto, using(crate::proofs::Spelled::doubled))]
    fn finds(&self, place: usize, index: usize) -> bool
        requires place_bound { place ≤ 8 }
        requires index_bound { index < 2 ^ place }
        ensures { Decides result (Reaches self.now.source.now self.now.plan.now place index self.now.bit) }
    {
        if place == 8 {
            return bit_in(&self.source.bits, index as u8) == self.bit;
        }
        let added = index + (1 << place);
        match self.plan.status(self.source.inputs[place]) {
            Status::Out => self.finds(place + 1, index),
            Status::In => self.finds(place + 1, added),
            Status::Open => self.finds(place + 1, index) || self.finds(place + 1, added),
        }
    }
}

fn can_be(source: &TableSource, plan: &PartialPlan, bit: bool) -> bool
    ensures { Decides result (Reaches source.now plan.now 0 0 bit) }
{
    BitSearch { source, plan, bit }.finds(0, 0)
}

impl SourceTruth for TableSource {
    ghost truth = { table_truth };

    fn settled(&self, plan: &PartialPlan) -> Option<bool> {
        if !can_be(self, plan, false) {
            Some(true)
        } else if can_be(self, plan, true) {
            None
        } else {
            Some(false)
        }
    }
}
