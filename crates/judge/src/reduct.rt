// The rules that a plan makes true in the body, and the lowest of them that it breaks.
ghost use Rattle.std.specs.Prelude.{◌≡◌, ◌≤◌, true, length};
ghost use Rattle.semantics.specs.Program.{any, all, literal_true};
ghost use Rattle.semantics.specs.Judge.{first_broken};
ghost use Rattle.semantics.specs.Check.{sources_known};
ghost use Rattle.plans.specs.Partial.{Decided, full};
ghost use Rattle.rulebook.specs.Rules.{head_of, body_of, rules_of};
ghost use Rattle.judge.specs.Ways.{Known};
ghost use Rattle.judge.specs.Search.{Live};
ghost use Rattle.judge.specs.Outcome.{as_option};

use crate::truth::View;
use oracles::Oracle;
use plans::PartialPlan;
use records::{Literal, RuleRow};

impl<O: Oracle> View<'_, O> {
    // Whether the plan makes a whole body true.
    fn holds(&self, body: &[Option<Literal>]) -> bool
        ensures { Known (O.Oracle.meaning self.now.oracle.now) body.now → Decided self.now.plan.now → result ≡ all (literal_true (O.Oracle.meaning self.now.oracle.now) (full self.now.plan.now)) (body_of body.now) }
    {
        body.iter().all(|place| self.truth(*place) == Some(true))
    }
}

// Whether a head atom is in.
fn head_in(head: &[u8], plan: &PartialPlan) -> bool
    ensures { result ≡ any (full plan.now) (head_of head.now) }
{
    head.iter().any(|atom| plan.has(*atom))
}

// The rules of a book, with a mark at those that belong to the reduct of a plan.
#[derive(Drop)]
pub(crate) struct Reduct<'a, O: Oracle> {
    pub(crate) rows: &'a [RuleRow],
    // Beside the rows, in fixed memory: a check allocates nothing.
    pub(crate) live: [bool; 256],
    pub(crate) oracle: &'a O,
    pub(crate) plan: &'a PartialPlan,
    ghost few: { length rows.now ≤ length live },
    ghost known: { sources_known (O.Oracle.meaning oracle.now) (rules_of rows.now) ≡ true },
    ghost decided: { Decided plan.now },
    ghost exact: { Live (O.Oracle.meaning oracle.now) (full plan.now) rows.now live },
}

impl<'a, O: Oracle> Reduct<'a, O> {
    pub(crate) fn of(rows: &'a [RuleRow], oracle: &'a O, plan: &'a PartialPlan) -> Reduct<'a, O>
        requires few { length rows.now ≤ 256 }
        requires known { sources_known (O.Oracle.meaning oracle.now) (rules_of rows.now) ≡ true }
        requires decided { Decided plan.now }
        ensures rows { result.rows.now ≡ rows.now }
        ensures oracle { result.oracle.now ≡ oracle.now }
        ensures plan { result.plan.now ≡ plan.now }
    {
        let view = View { oracle, plan };
        let mut live = [false; 256];
        // A loop over the rules: an array from a function asks at each of the 256 places whether there is one.
        for (number, row) in rows.iter().enumerate() {
            live[number] = view.holds(&row.body);
        }
        Reduct {
            rows,
            live,
            oracle,
            plan,
        }
    }

    // The lowest rule of the reduct with no head atom in.
    pub(crate) fn lowest_broken(&self) -> Option<usize>
        ensures { as_option result ≡ first_broken (O.Oracle.meaning self.now.oracle.now) (full self.now.plan.now) 0 (rules_of self.now.rows.now) }
    {
        self.rows
            .iter()
            .zip(self.live.iter())
            .position(|(row, live)| *live && !head_in(&row.head, self.plan))
    }
}
