// The kind of tables.
use crate::edge::*;
use sources::TableRecord;
use std::test::Fail;

// The one input is atom 7, and the table says yes where it is in.
pub const BASE: &[u8; 48] = b"ST\0\0\
    \x07\xff\xff\xff\xff\xff\xff\xff\
    \x02\0\0\0\0\0\0\0\0\0\0\0\0\0\0\0\0\0\0\0\0\0\0\0\0\0\0\0\0\0\0\0\
    \0\0\0\0";

pub const EDGES: [Edge; 29] = [
    Edge(0, b"", FINE),
    Edge(1, b"t", FORM),
    Edge(1, b"\0", FORM),
    Edge(4, b"\0", FINE),
    Edge(4, b"\xfe", FINE),
    Edge(4, b"\xf7\xf8\xf9\xfa\xfb\xfc\xfd\xfe", FINE),
    // One input has two bits.
    Edge(12, b"\0", FINE),
    Edge(12, b"\x03", FINE),
    Edge(12, b"\x04", BODY),
    Edge(12, b"\x80", BODY),
    Edge(13, b"\x01", BODY),
    Edge(43, b"\x80", BODY),
    // No input has one bit.
    Edge(4, b"\xff\xff\xff\xff\xff\xff\xff\xff\0", FINE),
    Edge(4, b"\xff\xff\xff\xff\xff\xff\xff\xff\x01", FINE),
    Edge(4, b"\xff\xff\xff\xff\xff\xff\xff\xff\x02", BODY),
    Edge(4, b"\xff\xff\xff\xff\xff\xff\xff\xff\x03", BODY),
    // Two inputs have four bits, and three have eight.
    Edge(4, b"\0\x01\xff\xff\xff\xff\xff\xff\x08", FINE),
    Edge(4, b"\0\x01\xff\xff\xff\xff\xff\xff\x10", BODY),
    Edge(4, b"\0\x01\x02\xff\xff\xff\xff\xff\x80", FINE),
    Edge(4, b"\0\x01\x02\xff\xff\xff\xff\xff\0\x01", BODY),
    // Four inputs have sixteen bits.
    Edge(4, b"\0\x01\x02\x03\xff\xff\xff\xff\0\x80", FINE),
    Edge(4, b"\0\x01\x02\x03\xff\xff\xff\xff\0\0\x01", BODY),
    Edge(44, b"\x01", TAIL),
    Edge(45, b"\x01", TAIL),
    Edge(46, b"\x01", TAIL),
    Edge(47, b"\x01", TAIL),
    Edge(47, b"\x80", TAIL),
    Edge(43, b"\x01\x01", BODY),
    Edge(43, b"\0\x01", TAIL),
];

// Seven inputs have the bits 0 to 127, which end in byte 27.
pub const SEVEN: &[u8; 48] = b"ST\0\0\
    \0\x01\x02\x03\x04\x05\x06\xff\
    \0\0\0\0\0\0\0\0\0\0\0\0\0\0\0\0\0\0\0\0\0\0\0\0\0\0\0\0\0\0\0\0\
    \0\0\0\0";

pub const SEVEN_EDGES: [Edge; 5] = [
    Edge(27, b"\x80", FINE),
    Edge(28, b"\x01", BODY),
    Edge(43, b"\x80", BODY),
    Edge(12, &[255; 16], FINE),
    Edge(12, &[255; 17], BODY),
];

// Eight inputs have all 256 bits. The last one is set.
pub const EIGHT: &[u8; 48] = b"ST\0\0\
    \0\x01\x02\x03\x04\x05\x06\xfe\
    \0\0\0\0\0\0\0\0\0\0\0\0\0\0\0\0\0\0\0\0\0\0\0\0\0\0\0\0\0\0\0\x80\
    \0\0\0\0";

pub const EIGHT_EDGES: [Edge; 5] = [
    Edge(0, b"", FINE),
    Edge(43, b"\0", FINE),
    Edge(12, &[255; 32], FINE),
    Edge(44, b"\x01", TAIL),
    // One input less leaves it unused.
    Edge(11, b"\xff", BODY),
];

// Everything is wrong. The rows mend it from the left.
pub const WRONG: &[u8; 48] = b"X\x01\x01\x01\
    \x07\x07\xff\xff\xff\xff\xff\xff\
    \x04\0\0\0\0\0\0\0\0\0\0\0\0\0\0\0\0\0\0\0\0\0\0\0\0\0\0\0\0\0\0\0\
    \x01\0\0\0";

pub const WRONG_EDGES: [Edge; 8] = [
    Edge(0, b"", LETTER),
    Edge(0, b"R", LETTER),
    Edge(0, b"C", LETTER),
    Edge(0, b"S", FORM),
    Edge(0, b"ST", ZERO),
    Edge(0, b"ST\0\0", ATOMS),
    Edge(0, b"ST\0\0\x07\xff", BODY),
    Edge(0, b"ST\0\0\x07\xff\xff\xff\xff\xff\xff\xff\0", TAIL),
];

// Forms that only the kind of sources takes.
const FORM_EDGES: [Edge; 2] = [Edge(1, b"W", FORM), Edge(1, b"K", FORM)];

#[test]
fn edges() -> Result<(), Fail> {
    Table("edges", BASE, &EDGES).check::<TableRecord>()?;
    Table("seven inputs", SEVEN, &SEVEN_EDGES).check::<TableRecord>()?;
    Table("eight inputs", EIGHT, &EIGHT_EDGES).check::<TableRecord>()?;
    Table("wrong", WRONG, &WRONG_EDGES).check::<TableRecord>()?;
    Table("other forms", BASE, &FORM_EDGES).check::<TableRecord>()?;
    check_frame::<TableRecord>("frame", BASE)
}
