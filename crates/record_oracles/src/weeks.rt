// The week oracle: a source is true when its inputs that are in fall in enough different weeks.
ghost use Rattle.std.specs.Prelude.{◌≡◌, ◌<◌, nat_eq};
ghost use Rattle.semantics.specs.Program.{any};
ghost use Rattle.record_oracles.specs.Inputs.{atoms_in};
ghost use Rattle.record_oracles.specs.Weeks.{week_of, weeks_in, distinct, week_truth, WeeksStand};

use crate::amounts::{Amount, reaches};
use crate::filled::Filled;
use crate::record_oracle::RecordOracle;
use crate::source_truth::SourceTruth;
use plans::PartialPlan;
use sources::{Dated, WeekSource};

pub type WeekOracle = RecordOracle<WeekSource>;

// The number of the week that a day falls in.
fn week_of(source: &WeekSource, day: u32) -> u64
    ensures { result ≡ week_of source.now.first day }
{
    (u64::from(day) + 10 - u64::from(source.first)) / 7
}

// Whether some input that is in falls in the week.
fn falls_in(source: &WeekSource, terms: &[Dated], week: u64, plan: Filled) -> bool
    ensures { result ≡ any (nat_eq week) (weeks_in (atoms_in plan.entry) source.now.first terms.now) }
{
    terms
        .iter()
        .any(|t| plan.has(t.atom) && week == week_of(source, t.day))
}

impl Amount for WeekSource {
    ghost amount_in = { λ s I. distinct (weeks_in I s.first s.terms) };

    // Each week is counted at the last input that falls in it.
    fn amount(&self, plan: Filled) -> u64 {
        self.terms
            .iter()
            .enumerate()
            .filter(|(k, t)| {
                plan.has(t.atom)
                    && !falls_in(self, &self.terms[k + 1..], week_of(self, t.day), plan)
            })
            .count() as u64
    }
}

impl SourceTruth for WeekSource {
    ghost truth = { week_truth };

    fn settled(&self, plan: &PartialPlan) -> Option<bool> {
        reaches(self, u64::from(self.wanted), plan)
    }
}

// A week source is true just where as many different weeks as it wants are visited.
pub fn weeks_stand()
    ensures { WeeksStand }
{}
