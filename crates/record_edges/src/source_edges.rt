// The kind of sources, whatever their form: it says what the reader of the form says.
use crate::edge::*;
use crate::{sum_edges, table_edges, week_edges};
use sources::SourceRecord;
use std::test::Fail;

// The table's bytes under other letters and forms. Under K no weeks are wanted, which is a fault of the tail.
const FORM_EDGES: [Edge; 12] = [
    Edge(1, b"T", FINE),
    Edge(1, b"W", FINE),
    Edge(1, b"K", TAIL),
    Edge(1, b"\0", FORM),
    Edge(1, b"t", FORM),
    Edge(1, b"S", FORM),
    Edge(0, b"R", LETTER),
    Edge(0, b"C", LETTER),
    Edge(0, b"RW", LETTER),
    Edge(0, b"RK", LETTER),
    Edge(0, b"R\0", LETTER),
    Edge(0, b"X\0\x01", LETTER),
];

#[test]
fn edges() -> Result<(), Fail> {
    Table("other forms", table_edges::BASE, &FORM_EDGES).check::<SourceRecord>()?;
    Table("table, edges", table_edges::BASE, &table_edges::EDGES).check::<SourceRecord>()?;
    Table(
        "table, wrong",
        table_edges::WRONG,
        &table_edges::WRONG_EDGES,
    )
    .check::<SourceRecord>()?;
    Table("sum, edges", sum_edges::BASE, &sum_edges::EDGES).check::<SourceRecord>()?;
    Table("sum, wrong", sum_edges::WRONG, &sum_edges::WRONG_EDGES).check::<SourceRecord>()?;
    Table("week, edges", week_edges::BASE, &week_edges::EDGES).check::<SourceRecord>()?;
    Table("week, wrong", week_edges::WRONG, &week_edges::WRONG_EDGES).check::<SourceRecord>()?;
    check_frame::<SourceRecord>("table, frame", table_edges::BASE)?;
    check_frame::<SourceRecord>("sum, frame", sum_edges::BASE)?;
    check_frame::<SourceRecord>("week, frame", week_edges::BASE)
}
