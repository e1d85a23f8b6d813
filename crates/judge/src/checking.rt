// The check of a plan.
ghost use Rattle.std.specs.Prelude.{◌≡◌, length};
ghost use Rattle.plans.specs.Bits.{marked};
ghost use Rattle.plans.specs.Partial.{full};
ghost use Rattle.rulebook.specs.Rules.{rules_of};
ghost use Rattle.judge.specs.Outcome.{Told, outcome};

use crate::reduct::Reduct;
use crate::sources::rules_known;
use crate::verdict::{CallFault, Verdict};
use oracles::Oracle;
use plans::{AtomSet, PartialPlan};
use rulebook::Rulebook;

// The most atoms that may be in when sets are searched.
const SEARCH_LIMIT: usize = 24;

impl<'a, O: Oracle> Reduct<'a, O> {
    // Judges the plan, where each source is known.
    fn verdict(&self, place: &mut [u8]) -> Result<Verdict, CallFault>
        requires { length place.old ≡ 32 }
        ensures { Told (outcome (rules_of self.now.rows.now) (O.Oracle.meaning self.now.oracle.now) (full self.now.plan.now) place.old) place.old place.new result }
    {
        if let Some(n) = self.lowest_broken() {
            place.fill(0);
            return Ok(Verdict::Broken(n));
        }
        if self.plan.count_in() > SEARCH_LIMIT {
            return Err(CallFault::Crowded);
        }
        let rest = self.plan.opened();
        match self.search(&rest) {
            None => {
                place.fill(0);
                Ok(Verdict::Stands)
            }
            Some(stays) => {
                let unfounded = self.plan.removed(&stays);
                place.copy_from_slice(unfounded.bytes());
                Ok(Verdict::Unfounded)
            }
        }
    }
}

// Judges the marks: whether they stand, which rule is the lowest broken, or which set is the earliest unfounded.
// The set's bits are written to the place, zeros for the other two answers; a refusal leaves it.
pub fn check<O: Oracle>(
    book: &Rulebook,
    oracle: &O,
    marks: &AtomSet,
    place: &mut [u8],
) -> Result<Verdict, CallFault>
    ensures { Told (outcome (rules_of book.now.rows.items) (O.Oracle.meaning oracle.now) (marked marks.now.bytes) place.old) place.old place.new result }
{
    if place.len() != 32 {
        return Err(CallFault::Place);
    }
    let rows = book.rows();
    if !rules_known(rows, oracle) {
        return Err(CallFault::UnknownSource);
    }
    let plan = PartialPlan::from(marks);
    Reduct::of(rows, oracle, &plan).verdict(place)
}
