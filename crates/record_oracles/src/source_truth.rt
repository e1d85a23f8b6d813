// A source of an oracle: a truth that a partial plan may settle.
ghost use Rattle.record_oracles.specs.Truth.{Truth, Settles};

use plans::PartialPlan;

pub trait SourceTruth {
    ghost truth: { Self → Truth };

    // The truth where the plan settles it.
    fn settled(&self, plan: &PartialPlan) -> Option<bool>
        ensures { Settles (truth self.now).on plan.now result };
}
