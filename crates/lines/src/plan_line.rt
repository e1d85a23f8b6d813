// A plan judged, as a line.
ghost use Rattle.std.specs.Prelude.{◌≡◌};
ghost use Rattle.semantics.specs.Check.{checked};
ghost use Rattle.plans.specs.Bits.{marked};
ghost use Rattle.rulebook.specs.Rules.{rules_of};
ghost use Rattle.lines.specs.Padded.{Answered};
ghost use Rattle.lines.specs.Reports.{said};
ghost use Rattle.lines.specs.Said.{said_of, line_bytes};

use crate::few_atoms::FewAtoms;
use crate::line::write_line;
use crate::report::{Outcome, Report};
use judge::{CallFault, Verdict, check};
use oracles::Oracle;
use records::Plan;
use rulebook::Rulebook;

// What a check of the plan says.
fn report_of<O: Oracle>(book: &Rulebook, oracle: &O, plan: &Plan) -> Report
    ensures { said result ≡ said_of plan.now.label (rules_of book.now.rows.items) (checked (rules_of book.now.rows.items) (O.Oracle.meaning oracle.now) (marked plan.now.marks.bytes)) }
{
    let mut set = [0u8; 32];
    let outcome = match check(book, oracle, &plan.marks, &mut set) {
        Err(fault) => Outcome::Refused(fault.named()),
        Ok(Verdict::Stands) => Outcome::Stands,
        Ok(Verdict::Broken(n)) => Outcome::Breaks {
            rule: book.label(n).unwrap_or(0),
        },
        Ok(Verdict::Unfounded) => match FewAtoms::new(set) {
            Some(atoms) => Outcome::Circle(atoms),
            None => unreachable!(),
        },
    };
    Report::Plan {
        label: plan.label,
        outcome,
    }
}

// Judges the plan and writes its line, with zeros after it; the line's length, the last byte counted. Book and oracle come apart,
// as `check` takes them.
pub fn write_plan_line<O: Oracle>(
    book: &Rulebook,
    oracle: &O,
    plan: &Plan,
    place: &mut [u8],
) -> Result<usize, CallFault>
    ensures { Answered (line_bytes (said_of plan.now.label (rules_of book.now.rows.items) (checked (rules_of book.now.rows.items) (O.Oracle.meaning oracle.now) (marked plan.now.marks.bytes)))) place.old result place.new }
{
    let report = report_of(book, oracle, plan);
    write_line(&report, place)
}
