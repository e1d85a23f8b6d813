// A plain row, and the rule that is made from it after a check.
ghost use Rattle.std.specs.Prelude.{◌≡◌};
ghost use Rattle.records.specs.Faults.{fault_in};
ghost use Rattle.records.specs.Rows.{row_of, row_fault, RuleOf};

use crate::fault::RecordFault;
use crate::literal::Literal;
use crate::rule::Rule;
use crate::rule_record::{check_rule, rule_fields};

// Without the ghost fields of a rule, so that a table of rows changes in place.
#[derive(Clone, Copy, Debug, PartialEq, Eq)]
pub struct RuleRow {
    pub head: [u8; 8],
    pub body: [Option<Literal>; 16],
    pub label: u32,
}

impl From<&Rule> for RuleRow {
    ghost from_gives = { λ rule row. row ≡ row_of rule.now };

    fn from(rule: &Rule) -> RuleRow {
        RuleRow {
            head: rule.head,
            body: rule.body,
            label: rule.label,
        }
    }
}

// Refused where the row breaks the rules of a rule record.
impl TryFrom<RuleRow> for Rule {
    type Error = RecordFault;

    ghost try_from_gives = { λ row rule. RuleOf row rule × (fault_in rule ≡ row_fault row) };

    fn try_from(row: RuleRow) -> Result<Rule, RecordFault> {
        let RuleRow { head, body, label } = row;
        check_rule(&rule_fields(&head, &body, label))?;
        Ok(Rule { head, body, label })
    }
}
