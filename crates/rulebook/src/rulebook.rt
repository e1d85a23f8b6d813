// A rulebook: up to 256 rules, numbered from 0, as a table of plain rows.
ghost use Rattle.std.specs.Prelude.{◌≡◌, ◌<◌, ◌≤◌, [], length, vec_len, MatchOption, slice_index_or};
ghost use Rattle.semantics.specs.Program.{no_rule};
ghost use Rattle.rulebook.specs.Books.{Added};
ghost use Rattle.rulebook.specs.Rules.{rules_of};

use crate::book_fault::BookFault;
use records::{Record, RuleRecord, RuleRow};
use std::alloc::Global;

// The most rules that a book may have.
const BOOK_LIMIT: usize = 256;

#[derive(Drop)]
pub struct Rulebook {
    rows: Vec<RuleRow>,
    ghost few: { vec_len rows ≤ 256 },
}

impl Rulebook {
    pub fn new(heap: Global) -> Rulebook
        ensures { result.rows.items ≡ [] }
    {
        Rulebook {
            rows: Vec::new(heap),
        }
    }

    // Appends the rule of a record.
    pub fn add(&mut self, record: &[u8]) -> Result<(), BookFault>
        ensures { Added «record».now self.old.rows.items self.new.rows.items result }
    {
        let rule = RuleRecord::decode(record)?;
        if self.rows.len() >= BOOK_LIMIT {
            return Err(BookFault::Full);
        }
        self.rows.push(RuleRow::from(&rule))?;
        Ok(())
    }

    // The label of a rule, if there is one with the number.
    pub fn label(&self, number: usize) -> Option<u32>
        ensures { MatchOption result (vec_len self.now.rows ≤ number) (λ l. (number < vec_len self.now.rows) × (l ≡ (slice_index_or (rules_of self.now.rows.items) number no_rule).label)) }
    {
        let row = self.rows.get(number)?;
        Some(row.label)
    }

    // The rules in the order of their numbers.
    pub fn rows(&self) -> &[RuleRow]
        ensures value { result.now ≡ self.now.rows.items }
        ensures bound { length result.now ≤ 256 }
    {
        self.rows.as_slice()
    }
}
