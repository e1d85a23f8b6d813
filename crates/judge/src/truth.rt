// The truth of a literal on a partial plan, as far as the plan settles it.
ghost use Rattle.std.specs.Prelude.{◌≡◌};
ghost use Rattle.semantics.specs.Program.{Meaning};
ghost use Rattle.judge.specs.Ways.{Tells};

use oracles::{Oracle, Reply};
use plans::PartialPlan;
use records::Literal;

fn atom_truth(atom: u8, rest: &PartialPlan) -> Option<bool>
    ensures { (m : Meaning) → Tells m rest.now (Some (Literal.Atom atom)) result }
{
    rest.status(atom).truth()
}

// An oracle, and the partial plan that it is asked of.
#[derive(Drop)]
pub(crate) struct View<'a, O> {
    pub(crate) oracle: &'a O,
    pub(crate) plan: &'a PartialPlan,
}

impl<O: Oracle> View<'_, O> {
    fn source_truth(&self, number: u8) -> Option<bool>
        ensures { Tells (O.Oracle.meaning self.now.oracle.now) self.now.plan.now (Some (Literal.Source number)) result }
    {
        match self.oracle.consult(number as usize, self.plan) {
            Reply::Yes => Some(true),
            Reply::No => Some(false),
            Reply::Open | Reply::NoSource => None,
        }
    }

    // The truth of a place of a body. An unused place asks nothing, so it is true. Always inline, since each check asks it of each literal.
    #[inline(always)]
    pub(crate) fn truth(&self, place: Option<Literal>) -> Option<bool>
        ensures { Tells (O.Oracle.meaning self.now.oracle.now) self.now.plan.now place result }
    {
        match place {
            None => Some(true),
            Some(Literal::Atom(a)) => atom_truth(a, self.plan),
            Some(Literal::NotAtom(a)) => atom_truth(a, self.plan).map(|truth| !truth),
            Some(Literal::Source(s)) => self.source_truth(s),
            Some(Literal::NotSource(s)) => self.source_truth(s).map(|truth| !truth),
        }
    }
}
