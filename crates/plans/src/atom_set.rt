// A set of atoms as plan bits: bit a is bit (a mod 8) of byte (a div 8). There are 255 atoms, so bit 255 is 0.
ghost use Rattle.std.specs.Prelude.{◌≡◌, ℕ, ◌<◌, ◌≤◌, length, MatchOption, slice_index};
ghost use Rattle.plans.specs.Bits.{bit_in, marked, BitsRead};

// Bit i of thirty-two bytes.
pub fn bit_in(bytes: &[u8; 32], i: u8) -> bool
    ensures { result ≡ bit_in bytes.now i }
{
    (bytes[(i / 8) as usize] >> (i % 8)) % 2 == 1
}

// Whether an atom is in the set of these bits; what is no atom is not.
pub fn is_marked(bytes: &[u8; 32], atom: u8) -> bool
    ensures { result ≡ marked bytes.now atom }
{
    atom < 255 && bit_in(bytes, atom)
}

#[derive(Clone, Copy)]
pub struct AtomSet {
    bytes: [u8; 32],
    ghost long: { length bytes ≡ 32 },
    ghost byte: { ((k : ℕ) → slice_index bytes k < 256) },
    ghost last: { slice_index bytes 31 < 128 },
}

impl AtomSet {
    // None where bit 255 is set.
    pub fn new(bytes: [u8; 32]) -> Option<AtomSet>
        ensures { MatchOption result (128 ≤ slice_index bytes 31) (λ s. (slice_index bytes 31 < 128) × (s.bytes ≡ bytes)) }
    {
        if bytes[31] < 128 {
            Some(AtomSet { bytes })
        } else {
            None
        }
    }

    pub(crate) fn of_bits(bytes: [u8; 32]) -> AtomSet
        requires { slice_index bytes 31 < 128 }
        ensures { result.bytes ≡ bytes }
    {
        AtomSet { bytes }
    }

    pub fn bytes(&self) -> &[u8; 32]
        ensures { result.now ≡ self.now.bytes }
    {
        &self.bytes
    }

    pub fn contains(&self, atom: u8) -> bool
        ensures { result ≡ marked self.now.bytes atom }
    {
        is_marked(&self.bytes, atom)
    }
}

// Each bit of a set that is written is read back as it was meant.
pub fn bits_read()
    ensures { BitsRead }
{}
