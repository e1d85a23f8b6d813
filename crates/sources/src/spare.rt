// What the inputs leave unused in a source's body is 0.
ghost use Rattle.std.specs.Prelude.{◌≡◌, ℕ, ◌-◌, List};
ghost use Rattle.sources.specs.Spare.{spare_bits, spare_numbers, SparesStand};

use plans::bit_in;
use records::atoms::used_places;
use records::fault::all_are;

// With n inputs there are 2^n states, and so many bits.
pub fn bits_keep(inputs: &[u8; 8], bits: &[u8; 32]) -> bool
    ensures { result ≡ spare_bits inputs.now bits.now }
{
    let states = 1usize << used_places(inputs);
    (states..256).all(|i| !bit_in(bits, i as u8))
}

// With n inputs there are n numbers of four bytes.
pub fn numbers_keep(inputs: &[u8; 8], bytes: &[u8; 32]) -> bool
    ensures { result ≡ spare_numbers inputs.now bytes.now }
{
    let start = 4 * used_places(inputs);
    all_are(&bytes[start..], 0)
}

// What the two tests say, in words.
pub fn spares_stand()
    ensures { (atoms bs : List ℕ) → SparesStand atoms bs }
{}
