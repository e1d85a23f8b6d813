// What a rule asks of the open atoms.
ghost use Rattle.std.specs.Prelude.{◌≡◌};
ghost use Rattle.judge.specs.Ways.{Asks, Sat, Known, ways_and, way_to_fail, is_several};

use crate::truth::View;
use oracles::Oracle;
use plans::Status;
use records::{Literal, RuleRow};

// The ways left to satisfy a rule: none, one atom to keep or to remove, or several. No option of an atom: one to keep is not
// one to remove, and none left ends a search where several go on with it.
#[derive(Clone, Copy)]
pub(crate) enum Ways {
    NoWay,
    Keep(u8),
    Remove(u8),
    Several,
}

impl Ways {
    // The ways of two together.
    fn and(self, more: Ways) -> Ways
        ensures { result ≡ ways_and self more }
    {
        match (self, more) {
            (Ways::NoWay, x) | (x, Ways::NoWay) => x,
            (Ways::Keep(a), Ways::Keep(b)) if a == b => self,
            (Ways::Remove(a), Ways::Remove(b)) if a == b => self,
            _ => Ways::Several,
        }
    }

    pub(crate) fn is_several(self) -> bool
        ensures { result ≡ is_several self }
    {
        matches!(self, Ways::Several)
    }
}

// How to make a literal false that is not settled.
fn way_to_fail(place: Option<Literal>) -> Ways
    ensures { result ≡ way_to_fail place }
{
    match place {
        Some(Literal::Atom(a)) => Ways::Remove(a),
        Some(Literal::NotAtom(a)) => Ways::Keep(a),
        _ => Ways::Several,
    }
}

impl<O: Oracle> View<'_, O> {
    // A rule is satisfied by a head atom that is kept or a literal that is false.
    pub(crate) fn ways(&self, row: &RuleRow) -> Ways
        ensures { Asks self.now.plan.now (Sat (O.Oracle.meaning self.now.oracle.now) row.now) (Known (O.Oracle.meaning self.now.oracle.now) row.now.body) result }
    {
        let mut left = Ways::NoWay;
        let head: &[u8] = &row.head;
        for a in head {
            match self.plan.status(*a) {
                Status::In => return Ways::Several,
                Status::Out => {}
                Status::Open => left = left.and(Ways::Keep(*a)),
            }
        }
        let body: &[Option<Literal>] = &row.body;
        for t in body {
            if left.is_several() {
                return Ways::Several;
            }
            match self.truth(*t) {
                Some(false) => return Ways::Several,
                Some(true) => {}
                None => left = left.and(way_to_fail(*t)),
            }
        }
        left
    }
}
