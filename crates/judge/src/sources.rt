// Whether the oracle has the sources that rules name.
ghost use Rattle.std.specs.Prelude.{◌≡◌};
ghost use Rattle.semantics.specs.Program.{Meaning, all};
ghost use Rattle.semantics.specs.Check.{literal_known, sources_known};
ghost use Rattle.rulebook.specs.Rules.{body_of, rules_of, place_known};

use oracles::Oracle;
use records::{Literal, RuleRow};

// Whether a place of a body names no source from `count` on.
fn knows(place: Option<Literal>, count: usize) -> bool
    ensures { (m : Meaning) → m.count ≡ count → result ≡ place_known m place }
{
    match place {
        Some(Literal::Source(s) | Literal::NotSource(s)) => (s as usize) < count,
        _ => true,
    }
}

fn body_known<O: Oracle>(body: &[Option<Literal>], oracle: &O) -> bool
    ensures { result ≡ all (literal_known (O.Oracle.meaning oracle.now)) (body_of body.now) }
{
    let count = oracle.count();
    body.iter().all(|place| knows(*place, count))
}

// Whether the oracle has every source that a rule names.
pub(crate) fn rules_known<O: Oracle>(rows: &[RuleRow], oracle: &O) -> bool
    ensures { result ≡ sources_known (O.Oracle.meaning oracle.now) (rules_of rows.now) }
{
    rows.iter().all(|row| body_known(&row.body, oracle))
}
