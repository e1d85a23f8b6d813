// The kind of plans.
use crate::edge::*;
use records::PlanRecord;
use std::test::Fail;

// Atom 1 is in, and the label is 1.
pub const BASE: &[u8; 48] = b"C\0\0\0\
    \xff\xff\xff\xff\xff\xff\xff\xff\
    \x02\0\0\0\0\0\0\0\0\0\0\0\0\0\0\0\0\0\0\0\0\0\0\0\0\0\0\0\0\0\0\0\
    \x01\0\0\0";

pub const EDGES: [Edge; 20] = [
    Edge(0, b"", FINE),
    Edge(1, b"T", FORM),
    // A plan lists no atoms, not even in order.
    Edge(4, b"\0", ATOMS),
    Edge(4, b"\xfe", ATOMS),
    Edge(11, b"\0", ATOMS),
    Edge(11, b"\xfe", ATOMS),
    Edge(4, b"\0\x01\x02\x03\x04\x05\x06\x07", ATOMS),
    // No atom, the least, the greatest, and the bit behind it.
    Edge(12, b"\0", FINE),
    Edge(12, b"\x01", FINE),
    Edge(43, b"\x40", FINE),
    Edge(43, b"\x7f", FINE),
    Edge(43, b"\x80", BODY),
    Edge(43, b"\xff", BODY),
    Edge(12, &[255; 31], FINE),
    Edge(12, &[255; 32], BODY),
    // Labels.
    Edge(44, b"\0", FINE),
    Edge(44, b"\xff\xff\xff\xff", FINE),
    Edge(47, b"\x80", FINE),
    // Body and label together.
    Edge(43, b"\x40\xff", FINE),
    Edge(43, b"\x80\xff", BODY),
];

// Every atom is in.
const FULL: &[u8; 48] = b"C\0\0\0\
    \xff\xff\xff\xff\xff\xff\xff\xff\
    \xff\xff\xff\xff\xff\xff\xff\xff\xff\xff\xff\xff\xff\xff\xff\xff\
    \xff\xff\xff\xff\xff\xff\xff\xff\xff\xff\xff\xff\xff\xff\xff\x7f\
    \xff\xff\xff\xff";

const FULL_EDGES: [Edge; 3] = [
    Edge(0, b"", FINE),
    Edge(43, b"\x3f", FINE),
    Edge(43, b"\xff", BODY),
];

// Everything is wrong that can be. The rows mend it from the left.
pub const WRONG: &[u8; 48] = b"X\x01\x01\x01\
    \x07\x07\xff\xff\xff\xff\xff\xff\
    \0\0\0\0\0\0\0\0\0\0\0\0\0\0\0\0\0\0\0\0\0\0\0\0\0\0\0\0\0\0\0\x80\
    \0\0\0\0";

const WRONG_EDGES: [Edge; 7] = [
    Edge(0, b"", LETTER),
    Edge(0, b"S", LETTER),
    Edge(0, b"R", LETTER),
    Edge(0, b"C", FORM),
    Edge(0, b"C\0", ZERO),
    Edge(0, b"C\0\0\0", ATOMS),
    Edge(0, b"C\0\0\0\xff\xff", BODY),
];

#[test]
fn edges() -> Result<(), Fail> {
    Table("edges", BASE, &EDGES).check::<PlanRecord>()?;
    Table("full", FULL, &FULL_EDGES).check::<PlanRecord>()?;
    Table("wrong", WRONG, &WRONG_EDGES).check::<PlanRecord>()?;
    check_frame::<PlanRecord>("frame", BASE)
}
