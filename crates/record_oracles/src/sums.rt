// The sum oracle: a source is true when the weights of its inputs that are in come to its bound.
ghost use Rattle.record_oracles.specs.Sums.{weight_in, sum_truth};

use crate::amounts::{Amount, reaches};
use crate::filled::Filled;
use crate::record_oracle::RecordOracle;
use crate::source_truth::SourceTruth;
use plans::PartialPlan;
use sources::{SumSource, Weighted};

pub type SumOracle = RecordOracle<SumSource>;

impl Amount for SumSource {
    ghost amount_in = { λ s I. weight_in I s.terms };

    fn amount(&self, plan: Filled) -> u64 {
        let terms: &[Weighted] = &self.terms;
        let mut sum = 0u64;
        // A loop, since a chain of map and sum takes a tenth longer, and consults are many.
        for t in terms {
            if plan.has(t.atom) {
                sum += u64::from(t.weight);
            }
        }
        sum
    }
}

impl SourceTruth for SumSource {
    ghost truth = { sum_truth };

    fn settled(&self, plan: &PartialPlan) -> Option<bool> {
        reaches(self, u64::from(self.bound), plan)
    }
}
