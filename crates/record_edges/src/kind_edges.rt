// A record of any kind: its letter says whose tests it is put to.
use crate::edge::*;
use crate::{plan_edges, rule_edges, sum_edges, table_edges, week_edges};
use sources::{Kind, check_record};
use std::test::Fail;

// The rule's bytes as a source have no form, and as a plan they list an atom.
const RULE_LETTERS: [Edge; 5] = [
    Edge(0, b"S", FORM),
    Edge(0, b"C", ATOMS),
    Edge(0, b"X", LETTER),
    Edge(0, b"s", LETTER),
    Edge(0, b"\0", LETTER),
];

// The plan's bytes as a rule say that atom 0 is not in.
const PLAN_AS_RULE: [Edge; 2] = [Edge(0, b"R", FINE), Edge(0, b"R\x01", FORM)];

// The table's bytes as a sum have the weight 2.
const TABLE_AS_SUM: [Edge; 1] = [Edge(1, b"W", FINE)];

fn check_kind(label: &Label<'_>, bytes: &[u8], kind: Kind, want: Want) -> Result<(), Fail> {
    match check_record(bytes) {
        Ok(found) => {
            label.check(FINE == want)?;
            label.check(found == kind)
        }
        Err(fault) => label.check_fault(fault, want),
    }
}

// A record that is accepted is of the kind.
fn check_kinds(table: Table<'_>, kind: Kind) -> Result<(), Fail> {
    table.check_rows(|label, bytes, want| check_kind(label, bytes, kind, want))
}

fn check_tables(tables: &[(Table<'_>, Kind)]) -> Result<(), Fail> {
    for (table, kind) in tables {
        check_kinds(*table, *kind)?;
    }
    Ok(())
}

#[test]
fn letters() -> Result<(), Fail> {
    check_tables(&[
        (
            Table("letters", rule_edges::BASE, &RULE_LETTERS),
            Kind::Rule,
        ),
        (
            Table("plan as rule", plan_edges::BASE, &PLAN_AS_RULE),
            Kind::Rule,
        ),
        (
            Table("table as sum", table_edges::BASE, &TABLE_AS_SUM),
            Kind::Sum,
        ),
    ])
}

#[test]
fn edges() -> Result<(), Fail> {
    check_tables(&[
        (
            Table("rule", rule_edges::BASE, &rule_edges::EDGES),
            Kind::Rule,
        ),
        (
            Table("plan", plan_edges::BASE, &plan_edges::EDGES),
            Kind::Plan,
        ),
        (
            Table("table", table_edges::BASE, &table_edges::EDGES),
            Kind::Table,
        ),
        (
            Table("table, frame", table_edges::BASE, &FRAME_EDGES),
            Kind::Table,
        ),
        (Table("sum", sum_edges::BASE, &sum_edges::EDGES), Kind::Sum),
        (
            Table("week", week_edges::BASE, &week_edges::EDGES),
            Kind::Week,
        ),
    ])
}

// No kind is asked where the length is wrong.
fn check_lengths(table: &str, base: &[u8; 48], kind: Kind) -> Result<(), Fail> {
    check_kind(&Label(table, "bytes", 0), &[], kind, SIZE)?;
    check_kind(&Label(table, "bytes", 47), &base[0..47], kind, SIZE)?;
    check_kind(&Label(table, "bytes", 49), &one_more(base), kind, SIZE)
}

#[test]
fn lengths() -> Result<(), Fail> {
    check_lengths("rule", rule_edges::BASE, Kind::Rule)
}
