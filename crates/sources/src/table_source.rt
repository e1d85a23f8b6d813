// A table: up to eight inputs, and a truth bit for each of their states.
ghost use Rattle.std.specs.Prelude.{◌≡◌, true, length};
ghost use Rattle.records.specs.Atoms.{ascends};
ghost use Rattle.sources.specs.Spare.{spare_bits};

#[derive(Clone, Copy, Debug, PartialEq, Eq)]
pub struct TableSource {
    pub inputs: [u8; 8],
    // Bit i is bit (i mod 8) of byte (i div 8), and the truth at index i.
    pub bits: [u8; 32],
    ghost inputs_long: { length inputs ≡ 8 },
    ghost inputs_ok: { ascends 0 inputs ≡ true },
    ghost bits_long: { length bits ≡ 32 },
    ghost unused_ok: { spare_bits inputs bits ≡ true },
}
