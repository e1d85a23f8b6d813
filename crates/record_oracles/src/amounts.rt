// Amounts that only grow as more atoms come in: the open atoms all out give the least, all in the greatest.
ghost use Rattle.std.specs.Prelude.{◌≡◌, ℕ, nat_le};
ghost use Rattle.semantics.specs.Program.{Interp};
ghost use Rattle.record_oracles.specs.Amounts.{Grows};
ghost use Rattle.record_oracles.specs.Inputs.{atoms_in};
ghost use Rattle.record_oracles.specs.Truth.{Settles};

use crate::filled::Filled;
use plans::PartialPlan;

pub(crate) trait Amount {
    ghost amount_in: { Self → Interp → ℕ };

    // What the inputs that are in come to.
    fn amount(&self, plan: Filled) -> u64
        ensures { result ≡ amount_in self.now (atoms_in plan.entry) };
}

// Whether the amount of a source reaches a bound, where the plan settles it. That amounts grow is asked here and is no law of
// `Amount`: a law's proof can cite no file of `proofs/`, and there its lemmas stay, since this inner call alone needs them.
pub(crate) fn reaches<S: Amount>(source: &S, bound: u64, plan: &PartialPlan) -> Option<bool>
    requires { Grows (S.amount_in source.now) }
    ensures { Settles (λ I. nat_le bound (S.amount_in source.now I)) plan.now result }
{
    let low = source.amount(Filled {
        plan,
        open_in: false,
    });
    if bound <= low {
        return Some(true);
    }
    let high = source.amount(Filled {
        plan,
        open_in: true,
    });
    if high < bound { Some(false) } else { None }
}
