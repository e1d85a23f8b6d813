// A set of at most 24 atoms, as plan bits.
ghost use Rattle.std.specs.Prelude.{◌≡◌, ◌<◌, ◌≤◌, length, MatchOption};
ghost use Rattle.plans.specs.Bits.{marked};
ghost use Rattle.lines.specs.Said.{members};

use plans::is_marked;

fn count(bits: &[u8; 32]) -> usize
    ensures { result ≡ length (members (marked bits.now)) }
{
    // A loop, since a chain of filter and count takes nearly twice as long.
    let mut count = 0;
    for atom in 0..255u8 {
        if is_marked(bits, atom) {
            count += 1;
        }
    }
    count
}

// Apart from `AtomSet`, since bit 255 may be set here.
#[derive(Clone, Copy, Debug, PartialEq, Eq)]
pub struct FewAtoms {
    bits: [u8; 32],
    ghost few: { length (members (marked bits)) ≤ 24 },
}

impl FewAtoms {
    // None where there are more than 24.
    pub fn new(bits: [u8; 32]) -> Option<FewAtoms>
        ensures { MatchOption result (24 < length (members (marked bits))) (λ s. (length (members (marked bits)) ≤ 24) × (s.bits ≡ bits)) }
    {
        if count(&bits) > 24 {
            return None;
        }
        Some(FewAtoms { bits })
    }

    pub fn contains(&self, atom: u8) -> bool
        ensures { result ≡ marked self.now.bits atom }
    {
        is_marked(&self.bits, atom)
    }
}
