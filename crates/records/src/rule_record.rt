// The kind of rules.
ghost use Rattle.std.specs.Prelude.{◌≡◌};
ghost use Rattle.records.specs.Faults.{first_fault, unless};
ghost use Rattle.records.specs.Rules.{rule_fields, rule_image, rule_tests, rule_fault, BodiesStand, LiteralsStand, RulesAllowed};
ghost use Rattle.records.specs.RulesLemmas.{rule_size, rule_clean, rule_single};
ghost use Rattle.std.proofs.Common.{rules};

use crate::atoms::atoms_ascend;
use crate::fault::{RecordFault, demand};
use crate::fields::{Fields, number_of, read_frame, write_frame};
use crate::literal::{Literal, body_bytes, body_keeps, read_body};
use crate::record::Record;
use crate::rule::Rule;

pub struct RuleRecord;

// A rule's own tests.
pub(crate) fn check_rule(fields: &Fields) -> Result<(), RecordFault>
    ensures { result ≡ unless (first_fault (rule_tests fields.now)) tt }
{
    let empty = (fields.atoms[0] == 255) & (fields.body[0] == 0);
    demand(atoms_ascend(&fields.atoms), RecordFault::Atoms)?;
    demand(body_keeps(&fields.body), RecordFault::Body)?;
    demand(!empty, RecordFault::Empty)
}

pub(crate) fn rule_fields(head: &[u8; 8], body: &[Option<Literal>; 16], label: u32) -> Fields
    ensures { result ≡ rule_fields head.now body.now label }
{
    Fields {
        atoms: *head,
        body: body_bytes(body),
        tail: label.to_le_bytes(),
    }
}

impl Record for RuleRecord {
    const LETTER: char = 'R';

    ghost LETTER = { 82 };

    type Decoded = Rule;

    ghost image = { rule_image };

    ghost fault = { rule_fault };

    ghost size = { λ v. rule_size v };

    ghost lettered = { Prim.search rules };

    ghost clean = { λ v. rule_clean v };

    ghost single = { λ v w e. rule_single v w e };

    fn decode(bytes: &[u8]) -> Result<Rule, RecordFault> {
        let fields = read_frame(bytes, Self::LETTER as u8, 0)?;
        check_rule(&fields)?;
        let head = fields.atoms;
        let body = read_body(&fields.body);
        let label = number_of(&fields.tail);
        Ok(Rule { head, body, label })
    }

    fn encode(value: &Rule, place: &mut [u8]) -> Result<(), RecordFault> {
        let fields = rule_fields(&value.head, &value.body, value.label);
        write_frame(place, Self::LETTER as u8, 0, &fields)
    }
}

// What the bytes of a rule's body allow, said of its literals.
pub fn bodies_stand()
    ensures { BodiesStand }
{}

// The test of a body's bytes, said of its places, both ways.
pub fn literals_stand()
    ensures { LiteralsStand }
{}

// What every rule is, said of its atoms and its literals.
pub fn rules_allowed()
    ensures { RulesAllowed }
{}
