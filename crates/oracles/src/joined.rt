// The first oracle's sources, then the second's.
ghost use Rattle.oracles.specs.Joined.{joined};

use crate::oracle::{Oracle, Reply, SOURCE_LIMIT};
use plans::PartialPlan;

#[derive(Drop)]
pub struct Joined<A, B> {
    pub first: A,
    pub second: B,
}

impl<A: Oracle, B: Oracle> Oracle for Joined<A, B> {
    ghost meaning = { λ j. joined (A.Oracle.meaning j.first) (B.Oracle.meaning j.second) };

    fn count(&self) -> usize {
        let both = self.first.count() + self.second.count();
        both.min(SOURCE_LIMIT)
    }

    fn consult(&self, number: usize, plan: &PartialPlan) -> Reply {
        if number >= SOURCE_LIMIT {
            return Reply::NoSource;
        }
        let seam = self.first.count();
        if number < seam {
            self.first.consult(number, plan)
        } else {
            self.second.consult(number - seam, plan)
        }
    }
}
