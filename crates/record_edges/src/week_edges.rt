// The kind of weeks.
use crate::edge::*;
use sources::WeekRecord;
use std::test::Fail;

// The inputs 0 and 1 are on the days 3 and 4, two weeks are wanted, and a week begins on Monday.
pub const BASE: &[u8; 48] = b"SK\0\0\
    \0\x01\xff\xff\xff\xff\xff\xff\
    \x03\0\0\0\x04\0\0\0\0\0\0\0\0\0\0\0\0\0\0\0\0\0\0\0\0\0\0\0\0\0\0\0\
    \x02\0\0\0";

pub const EDGES: [Edge; 39] = [
    Edge(0, b"", FINE),
    Edge(1, b"k", FORM),
    Edge(1, b"\0", FORM),
    Edge(4, b"\xfd\xfe", FINE),
    Edge(4, b"\0\x01\x02", FINE),
    Edge(4, b"\xf7\xf8\xf9\xfa\xfb\xfc\xfd\xfe", FINE),
    // Days are any numbers, in any order.
    Edge(12, b"\xff\xff\xff\xff", FINE),
    Edge(15, b"\x80", FINE),
    Edge(16, b"\xff\xff\xff\xff", FINE),
    Edge(19, b"\xff", FINE),
    Edge(12, b"\x04", FINE),
    Edge(12, b"\0\0\0\0\0", FINE),
    // Inputs 2 to 7 are not used.
    Edge(20, b"\x01", BODY),
    Edge(23, b"\x80", BODY),
    Edge(24, b"\x01", BODY),
    Edge(40, b"\x01", BODY),
    Edge(43, b"\x80", BODY),
    // One input, with a day for two.
    Edge(5, b"\xff", BODY),
    Edge(5, b"\xff\xff\xff\xff\xff\xff\xff\x03\0\0\0\0", FINE),
    // No input, with two days, with one, and with none.
    Edge(4, b"\xff\xff", BODY),
    Edge(4, b"\xff\xff\xff\xff\xff\xff\xff\xff\x03\0\0\0\0", BODY),
    Edge(4, b"\xff\xff\xff\xff\xff\xff\xff\xff\0\0\0\0\0", FINE),
    // One to eight weeks, whatever the inputs.
    Edge(44, b"\0", TAIL),
    Edge(44, b"\x01", FINE),
    Edge(44, b"\x08", FINE),
    Edge(44, b"\x09", TAIL),
    Edge(44, b"\xff", TAIL),
    // Monday to Sunday.
    Edge(45, b"\x01", FINE),
    Edge(45, b"\x06", FINE),
    Edge(45, b"\x07", TAIL),
    Edge(45, b"\xff", TAIL),
    Edge(46, b"\x01", TAIL),
    Edge(47, b"\x01", TAIL),
    Edge(47, b"\x80", TAIL),
    Edge(44, b"\x08\x06", FINE),
    Edge(44, b"\x09\x07", TAIL),
    Edge(44, b"\x01\x06\x01\x01", TAIL),
    Edge(43, b"\x01\0", BODY),
    Edge(43, b"\0\0", TAIL),
];

// Eight inputs leave no place unused. The last day has its highest bit.
pub const EIGHT: &[u8; 48] = b"SK\0\0\
    \0\x01\x02\x03\x04\x05\x06\xfe\
    \0\0\0\0\0\0\0\0\0\0\0\0\0\0\0\0\0\0\0\0\0\0\0\0\0\0\0\0\0\0\0\x80\
    \x08\x06\0\0";

pub const EIGHT_EDGES: [Edge; 4] = [
    Edge(0, b"", FINE),
    Edge(12, &[255; 32], FINE),
    Edge(12, &[255; 33], TAIL),
    // One input less leaves it unused.
    Edge(11, b"\xff", BODY),
];

// Everything is wrong. The rows mend it from the left.
pub const WRONG: &[u8; 48] = b"X\x01\x01\x01\
    \x07\x07\xff\xff\xff\xff\xff\xff\
    \0\0\0\0\x01\0\0\0\0\0\0\0\0\0\0\0\0\0\0\0\0\0\0\0\0\0\0\0\0\0\0\0\
    \0\x07\x01\x01";

pub const WRONG_EDGES: [Edge; 8] = [
    Edge(0, b"", LETTER),
    Edge(0, b"R", LETTER),
    Edge(0, b"C", LETTER),
    Edge(0, b"S", FORM),
    Edge(0, b"SK", ZERO),
    Edge(0, b"SK\0\0", ATOMS),
    Edge(0, b"SK\0\0\x07\xff", BODY),
    Edge(0, b"SK\0\0\x07\x08", TAIL),
];

// Forms that only the kind of sources takes.
const FORM_EDGES: [Edge; 2] = [Edge(1, b"T", FORM), Edge(1, b"W", FORM)];

#[test]
fn edges() -> Result<(), Fail> {
    Table("edges", BASE, &EDGES).check::<WeekRecord>()?;
    Table("eight inputs", EIGHT, &EIGHT_EDGES).check::<WeekRecord>()?;
    Table("wrong", WRONG, &WRONG_EDGES).check::<WeekRecord>()?;
    Table("other forms", BASE, &FORM_EDGES).check::<WeekRecord>()?;
    check_frame::<WeekRecord>("frame", BASE)
}
