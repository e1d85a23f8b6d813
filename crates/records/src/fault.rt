// Faults of a record, and the one table of the fields that they name.
ghost use Rattle.std.specs.Prelude.{◌≡◌, length};
ghost use Rattle.records.specs.Faults.{fault_name, length_of, field_of, all_are, demanded};

// What is wrong with a record, with the fault's number.
#[derive(Clone, Copy, Debug, PartialEq, Eq)]
pub enum RecordFault {
    Size = 1,
    Letter,
    Form,
    Zero,
    Atoms,
    Body,
    Tail,
    Empty,
}

// What refuses: a record, the rulebook, a file, or a call on its own.
#[derive(Clone, Copy, Debug, PartialEq, Eq)]
pub enum Layer {
    Record,
    Book,
    File,
    Call,
}

// What a fault says of itself. Where no field is at fault the byte is 0.
#[derive(Clone, Copy, Debug, PartialEq, Eq)]
pub struct Named {
    pub layer: Layer,
    pub number: usize,
    pub byte: usize,
}

#[derive(Clone, Copy)]
struct Span {
    start: usize,
    len: usize,
}

// The field that a fault number names. Fault 1 names none, and fault 8 names the atom list.
const FIELDS: [Span; 9] = [
    Span { start: 0, len: 0 },
    Span { start: 0, len: 0 },
    Span { start: 0, len: 1 },
    Span { start: 1, len: 1 },
    Span { start: 2, len: 2 },
    Span { start: 4, len: 8 },
    Span { start: 12, len: 32 },
    Span { start: 44, len: 4 },
    Span { start: 4, len: 8 },
];

fn span_of(fault: RecordFault) -> Span
    ensures start { result.start ≡ (fault_name fault).byte }
    ensures len { result.len ≡ length_of fault }
{
    FIELDS[fault as usize]
}

impl RecordFault {
    pub fn named(self) -> Named
        ensures { result ≡ fault_name self }
    {
        let byte = span_of(self).start;
        Named {
            layer: Layer::Record,
            number: self as usize,
            byte,
        }
    }
}

// The bytes of the field that a fault names.
pub(crate) fn part_of(bytes: &[u8; 48], fault: RecordFault) -> &[u8]
    ensures part { result.now ≡ field_of fault bytes.now }
    ensures len { length result.now ≡ length_of fault }
{
    let span = span_of(fault);
    let start = span.start;
    let end = start + span.len;
    &bytes[start..end]
}

// Whether each byte is b.
pub fn all_are(bytes: &[u8], b: u8) -> bool
    ensures { result ≡ all_are b bytes.now }
{
    bytes.iter().all(|x| *x == b)
}

// The fault, unless a rule is kept.
pub fn demand<E: Drop>(ok: bool, fault: E) -> Result<(), E>
    ensures { result ≡ demanded ok fault }
{
    if ok { Ok(()) } else { Err(fault) }
}

// The fault, unless each byte of its field is b.
pub(crate) fn demand_all(bytes: &[u8; 48], fault: RecordFault, b: u8) -> Result<(), RecordFault>
    ensures { result ≡ demanded (all_are b (field_of fault bytes.now)) fault }
{
    demand(all_are(part_of(bytes, fault), b), fault)
}
