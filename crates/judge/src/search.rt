// The search for the earliest set of atoms that a plan has no ground for.
ghost use Rattle.std.specs.Prelude.{◌≡◌, length};
ghost use Rattle.judge.specs.Ways.{Asks};
ghost use Rattle.judge.specs.Search.{SatAll, KnownAll, Fit, Found, Lacking};

use crate::reduct::Reduct;
use crate::truth::View;
use crate::ways::Ways;
use oracles::Oracle;
use plans::{PartialPlan, Status};

// Whether an atom of the plan is removed.
fn lacks(plan: &PartialPlan, rest: &PartialPlan) -> bool
    ensures { Lacking plan.now rest.now result }
{
    (0..255u8).any(|atom| plan.has(atom) && !rest.has(atom))
}

impl<'a, O: Oracle> Reduct<'a, O> {
    // What the rules of the reduct ask of the open atoms: the first that asks something is heard.
    fn asks(&self, rest: &PartialPlan) -> Ways
        ensures { Asks rest.now (SatAll (O.Oracle.meaning self.now.oracle.now) self.now.rows.now self.now.live (length self.now.rows.now)) (KnownAll (O.Oracle.meaning self.now.oracle.now) self.now.rows.now) result }
    {
        let view = View {
            oracle: self.oracle,
            plan: rest,
        };
        for (row, live) in self.rows.iter().zip(self.live.iter()) {
            if *live {
                let ways = view.ways(row);
                if !ways.is_several() {
                    return ways;
                }
            }
        }
        Ways::Several
    }

    // The first way to keep some atoms of the plan and not all, of those that `rest` leaves: the lowest open atom is tried
    // kept first, so the atoms that go are the earliest set. An atom that a rule asks for is decided without a branch.
    #[tactic(auto, using(crate::proofs::Satisfied::rows_known))]
    pub(crate) fn search(&self, rest: &PartialPlan) -> Option<PartialPlan>
        ensures { Found (Fit (O.Oracle.meaning self.now.oracle.now) self.now.rows.now self.now.live self.now.plan.now) rest.now result }
    {
        match self.asks(rest) {
            Ways::NoWay => None,
            Ways::Keep(a) => self.search(&rest.decided(a, Status::In)),
            Ways::Remove(a) => self.search(&rest.decided(a, Status::Out)),
            Ways::Several => match rest.lowest_open() {
                None => lacks(self.plan, rest).then_some(*rest),
                Some(a) => {
                    let kept = rest.decided(a, Status::In);
                    if let Some(found) = self.search(&kept) {
                        return Some(found);
                    }
                    self.search(&rest.decided(a, Status::Out))
                }
            },
        }
    }
}
