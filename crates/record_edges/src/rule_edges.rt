// The kind of rules.
use crate::edge::*;
use records::RuleRecord;
use std::test::Fail;

// The head is atom 7, the body is source 63, and the label is 0.
pub const BASE: &[u8; 48] = b"R\0\0\0\
    \x07\xff\xff\xff\xff\xff\xff\xff\
    \x03\x3f\0\0\0\0\0\0\0\0\0\0\0\0\0\0\0\0\0\0\0\0\0\0\0\0\0\0\0\0\0\0\
    \0\0\0\0";

pub const EDGES: [Edge; 43] = [
    Edge(0, b"", FINE),
    Edge(1, b"T", FORM),
    // The least and the greatest atom, and then the place that is not used.
    Edge(4, b"\0", FINE),
    Edge(4, b"\xfe", FINE),
    Edge(4, b"\xff", FINE),
    Edge(4, b"\x07\x08", FINE),
    Edge(4, b"\0\xfe", FINE),
    Edge(4, b"\xf7\xf8\xf9\xfa\xfb\xfc\xfd\xfe", FINE),
    // The numbers of each code.
    Edge(12, b"\x01\0", FINE),
    Edge(12, b"\x01\xfe", FINE),
    Edge(12, b"\x01\xff", BODY),
    Edge(12, b"\x02\0", FINE),
    Edge(12, b"\x02\xfe", FINE),
    Edge(12, b"\x02\xff", BODY),
    Edge(12, b"\x03\0", FINE),
    Edge(12, b"\x03\x3f", FINE),
    Edge(12, b"\x03\x40", BODY),
    Edge(12, b"\x03\xff", BODY),
    Edge(12, b"\x04\0", FINE),
    Edge(12, b"\x04\x3f", FINE),
    Edge(12, b"\x04\x40", BODY),
    Edge(12, b"\x04\xff", BODY),
    Edge(12, b"\0\0", FINE),
    Edge(12, b"\0\x01", BODY),
    Edge(12, b"\x05\0", BODY),
    Edge(12, b"\xff\0", BODY),
    Edge(14, b"\x05\0", BODY),
    Edge(14, b"\0\x01", BODY),
    // A literal behind a place that is not used.
    Edge(12, b"\0\0\x01\x07", BODY),
    Edge(16, b"\x01\x07", BODY),
    Edge(42, b"\x01\x07", BODY),
    Edge(43, b"\x01", BODY),
    // Literals may repeat, and contradict each other.
    Edge(14, b"\x03\x3f", FINE),
    Edge(14, b"\x04\x3f", FINE),
    Edge(44, b"\x01", FINE),
    Edge(44, b"\xff\xff\xff\xff", FINE),
    Edge(47, b"\x80", FINE),
    // No head, and no literal either.
    Edge(4, b"\xff\xff\xff\xff\xff\xff\xff\xff\0\0", EMPTY),
    Edge(3, b"\x01\xff\xff\xff\xff\xff\xff\xff\xff\0\0", ZERO),
    Edge(4, b"\xff\x07\xff\xff\xff\xff\xff\xff\0\0", ATOMS),
    Edge(4, b"\xff\xff\xff\xff\xff\xff\xff\xff\0\x01", BODY),
    Edge(4, b"\xff\xff\xff\xff\xff\xff\xff\xff\0\0\x01\x07", BODY),
    Edge(4, b"\xff\xff\xff\xff\xff\xff\xff\xff\x01\0", FINE),
];

// Sixteen literals, the last one at byte 42.
const FULL: &[u8; 48] = b"R\0\0\0\
    \xff\xff\xff\xff\xff\xff\xff\xff\
    \x01\0\x02\0\x03\0\x04\0\x01\x01\x02\x01\x03\x01\x04\x01\x01\0\x02\0\x03\0\x04\0\x01\x01\x02\x01\x03\x01\x04\x01\
    \0\0\0\0";

const FULL_EDGES: [Edge; 6] = [
    Edge(0, b"", FINE),
    Edge(42, b"\0\0", FINE),
    Edge(42, b"\0\x01", BODY),
    Edge(42, b"\x04\x40", BODY),
    Edge(42, b"\x05\0", BODY),
    Edge(40, b"\0\0", BODY),
];

// Everything is wrong. The rows mend it from the left, and each time the leftmost fault is named.
pub const WRONG: &[u8; 48] = b"X\x01\x01\x01\
    \x07\x07\xff\xff\xff\xff\xff\xff\
    \0\x01\0\0\0\0\0\0\0\0\0\0\0\0\0\0\0\0\0\0\0\0\0\0\0\0\0\0\0\0\0\0\
    \0\0\0\0";

const WRONG_EDGES: [Edge; 8] = [
    Edge(0, b"", LETTER),
    Edge(0, b"S", LETTER),
    Edge(0, b"C", LETTER),
    Edge(0, b"R", FORM),
    Edge(0, b"R\0", ZERO),
    Edge(0, b"R\0\0\0", ATOMS),
    Edge(0, b"R\0\0\0\xff\xff", BODY),
    Edge(0, b"R\0\0\0\xff\xff\xff\xff\xff\xff\xff\xff\0\0", EMPTY),
];

#[test]
fn edges() -> Result<(), Fail> {
    Table("edges", BASE, &EDGES).check::<RuleRecord>()?;
    Table("full", FULL, &FULL_EDGES).check::<RuleRecord>()?;
    Table("wrong", WRONG, &WRONG_EDGES).check::<RuleRecord>()?;
    check_frame::<RuleRecord>("frame", BASE)
}
