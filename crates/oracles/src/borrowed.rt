// An oracle behind a reference, so that a join can be made of borrowed ones.
use crate::oracle::{Oracle, Reply};
use plans::PartialPlan;

impl<'a, A: Oracle> Oracle for &'a A {
    ghost meaning = { λ o. A.Oracle.meaning o.now };

    fn count(&self) -> usize {
        A::count(*self)
    }

    fn consult(&self, number: usize, plan: &PartialPlan) -> Reply {
        A::consult(*self, number, plan)
    }
}
