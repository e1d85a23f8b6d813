// The oracle over a list of sources, of which as many count as an oracle may have.
ghost use Rattle.std.specs.Prelude.{◌≡◌};
ghost use Rattle.oracles.specs.Answers.{Answers};
ghost use Rattle.record_oracles.specs.Listed.{run};
ghost use Rattle.record_oracles.specs.Truth.{Sharp};

use crate::source_truth::SourceTruth;
use oracles::{Oracle, Reply, SOURCE_LIMIT};
use plans::PartialPlan;

#[derive(Drop)]
pub struct RecordOracle<S> {
    pub sources: Vec<S>,
}

impl<S: SourceTruth> RecordOracle<S> {
    pub fn new(sources: Vec<S>) -> RecordOracle<S>
        ensures { result.sources ≡ sources }
    {
        RecordOracle { sources }
    }
}

impl<S: SourceTruth> Oracle for RecordOracle<S> {
    ghost meaning = { λ o. run S.SourceTruth.truth o.sources.items };

    fn count(&self) -> usize {
        self.sources.len().min(SOURCE_LIMIT)
    }

    fn consult(&self, number: usize, plan: &PartialPlan) -> Reply
        ensures answers { Answers (run S.SourceTruth.truth self.now.sources.items) number plan.now result }
        ensures sharp { Sharp (run S.SourceTruth.truth self.now.sources.items) number plan.now result }
    {
        if number >= self.count() {
            return Reply::NoSource;
        }
        Reply::from(self.sources[number].settled(plan))
    }
}
