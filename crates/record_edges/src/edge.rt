// A row of a table, and the tests of a whole table.
use records::{Layer, Record, RecordFault, reread, rewrite};
use std::fmt;
use std::fmt::{Display, Formatter, Write};
use std::test::Fail;

// The number of a record's fault, and the byte that it names, as they are published: a `RecordFault` would take both from the
// code under test.
pub type Want = Option<(usize, usize)>;

pub const FINE: Want = None;

pub const SIZE: Want = Some((1, 0));

pub const LETTER: Want = Some((2, 0));

pub const FORM: Want = Some((3, 1));

pub const ZERO: Want = Some((4, 2));

pub const ATOMS: Want = Some((5, 4));

pub const BODY: Want = Some((6, 12));

pub const TAIL: Want = Some((7, 44));

pub const EMPTY: Want = Some((8, 4));

// Where to put which bytes into the base, and what is then wrong with the record.
#[derive(Clone, Copy)]
pub struct Edge(pub usize, pub &'static [u8], pub Want);

// What a failed check names: a table, and which row of it or which bytes.
#[derive(Clone, Copy)]
pub struct Label<'a>(pub &'a str, pub &'a str, pub usize);

impl Display for Label<'_> {
    fn fmt<W: Write>(&self, f: &mut Formatter<W>) -> fmt::Result {
        let Label(table, part, number) = *self;
        write!(f, "{table}, {part} {number}")
    }
}

impl Label<'_> {
    pub fn failed(&self, what: &str) -> Fail {
        let label = *self;
        Fail::new(format_args!("{label}: {what}"))
    }

    pub fn check(&self, holds: bool) -> Result<(), Fail> {
        if holds {
            Ok(())
        } else {
            Err(self.failed("differs"))
        }
    }

    pub fn check_fault(&self, fault: RecordFault, want: Want) -> Result<(), Fail> {
        let named = fault.named();
        self.check(named.layer == Layer::Record)?;
        self.check(Some((named.number, named.byte)) == want)
    }

    // A place of another length is refused, and keeps its bytes.
    fn check_misfit<K: Record>(&self, value: &K::Decoded, len: usize) -> Result<(), Fail> {
        let mut place = [0xAA; 49];
        if len > 49 {
            return Err(self.failed("too long"));
        }
        match K::encode(value, &mut place[0..len]) {
            Ok(()) => return Err(self.failed("accepted")),
            Err(fault) => self.check_fault(fault, SIZE)?,
        }
        self.check(place == [0xAA; 49])
    }

    // Both round trips in one call each.
    fn check_trips<K: Record>(&self, value: &K::Decoded, bytes: &[u8]) -> Result<(), Fail>
    where
        K::Decoded: Drop,
    {
        let mut place = [0xAA; 48];
        self.check(rewrite::<K>(bytes, &mut place).is_ok())?;
        self.check(&place[..] == bytes)?;
        place = [0xAA; 48];
        match reread::<K>(value) {
            Ok(same) => self.check(K::encode(&same, &mut place).is_ok())?,
            Err(_) => return Err(self.failed("not reread")),
        }
        self.check(&place[..] == bytes)
    }

    // What is read is written again as the same bytes.
    fn check_written<K: Record>(&self, value: &K::Decoded, bytes: &[u8]) -> Result<(), Fail>
    where
        K::Decoded: Drop,
    {
        self.check_trips::<K>(value, bytes)?;
        let mut place = [0xAA; 48];
        self.check(K::encode(value, &mut place).is_ok())?;
        self.check(&place[..] == bytes)?;
        self.check_misfit::<K>(value, 0)?;
        self.check_misfit::<K>(value, 47)?;
        self.check_misfit::<K>(value, 49)
    }

    fn check_read<K: Record>(&self, bytes: &[u8], want: Want) -> Result<(), Fail>
    where
        K::Decoded: Drop,
    {
        match K::decode(bytes) {
            Ok(value) => {
                self.check(FINE == want)?;
                self.check_written::<K>(&value, bytes)
            }
            Err(fault) => self.check_fault(fault, want),
        }
    }
}

// A base, and the rows that change it.
#[derive(Clone, Copy)]
pub struct Table<'a>(pub &'a str, pub &'a [u8; 48], pub &'a [Edge]);

impl Table<'_> {
    // Each row is put to a judge of its bytes.
    pub fn check_rows<F: Fn(&Label<'_>, &[u8], Want) -> Result<(), Fail>>(
        &self,
        judge: F,
    ) -> Result<(), Fail>
        requires { F.IsAlwaysCallable judge }
    {
        let Table(name, base, edges) = *self;
        for (row, edge) in edges.iter().enumerate() {
            let label = Label(name, "row", row);
            let record = changed(&label, base, edge)?;
            judge(&label, &record, edge.2)?;
        }
        Ok(())
    }

    pub fn check<K: Record>(&self) -> Result<(), Fail>
    where
        K::Decoded: Drop,
    {
        self.check_rows(|label, bytes, want| label.check_read::<K>(bytes, want))
    }
}

fn changed(label: &Label<'_>, base: &[u8; 48], edge: &Edge) -> Result<[u8; 48], Fail> {
    let Edge(at, bytes, _) = *edge;
    let mut record = *base;
    if at > 48 || bytes.len() > 48 - at {
        return Err(label.failed("does not fit"));
    }
    record[at..at + bytes.len()].copy_from_slice(bytes);
    Ok(record)
}

pub fn one_more(record: &[u8; 48]) -> [u8; 49] {
    let mut bytes = [0; 49];
    bytes[0..48].copy_from_slice(record);
    bytes
}

// What every kind says alike. Of a good atom list only some kinds approve.
pub const FRAME_EDGES: [Edge; 22] = [
    Edge(0, b"", FINE),
    Edge(0, b"X", LETTER),
    Edge(0, b"s", LETTER),
    Edge(0, b"\0", LETTER),
    Edge(1, b"\x01", FORM),
    Edge(1, b"S", FORM),
    Edge(1, b"\xff", FORM),
    Edge(2, b"\x01", ZERO),
    Edge(3, b"\x01", ZERO),
    Edge(2, b"\xff\xff", ZERO),
    // Equal atoms.
    Edge(4, b"\0\0", ATOMS),
    Edge(4, b"\xfe\xfe", ATOMS),
    Edge(4, b"\xf7\xf8\xf9\xfa\xfb\xfc\xfd\xfd", ATOMS),
    // Descending atoms.
    Edge(4, b"\x07\x06", ATOMS),
    Edge(4, b"\x07\x09\x08", ATOMS),
    // An atom behind an unused place.
    Edge(4, b"\xff\x07", ATOMS),
    Edge(4, b"\x07\xff\x08", ATOMS),
    Edge(11, b"\xfe", ATOMS),
    // Two faults, of which the first is named.
    Edge(0, b"X\xff", LETTER),
    Edge(0, b"X\0\x01", LETTER),
    Edge(1, b"\xff\x01", FORM),
    Edge(3, b"\x01\x07\x07", ZERO),
];

// What every kind has: its frame, and records of forty-eight bytes.
pub fn check_frame<K: Record>(table: &str, base: &[u8; 48]) -> Result<(), Fail>
where
    K::Decoded: Drop,
{
    Table(table, base, &FRAME_EDGES).check::<K>()?;
    Label(table, "bytes", 0).check_read::<K>(&[], SIZE)?;
    Label(table, "zeros", 47).check_read::<K>(&[0; 47], SIZE)?;
    Label(table, "bytes", 47).check_read::<K>(&base[0..47], SIZE)?;
    Label(table, "bytes", 49).check_read::<K>(&one_more(base), SIZE)
}
