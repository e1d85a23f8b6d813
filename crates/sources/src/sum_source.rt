// A sum: up to eight inputs with a weight each, and a bound.
ghost use Rattle.std.specs.Prelude.{◌≡◌, ℕ, ◌^◌, ◌<◌, true, map, length, slice_index};
ghost use Rattle.std.specs.List.{flat_map};
ghost use Rattle.records.specs.Atoms.{ascends};
ghost use Rattle.records.specs.Numbers.{le4};
ghost use Rattle.sources.specs.Spare.{spare_numbers};

// A type apart from `Dated`, so that no weight is taken for a day.
#[derive(Clone, Copy, Debug, PartialEq, Eq)]
pub struct Weighted {
    pub atom: u8,
    pub weight: u32,
}

#[derive(Clone, Copy, Debug, PartialEq, Eq)]
pub struct SumSource {
    pub terms: [Weighted; 8],
    pub bound: u32,
    ghost terms_long: { length terms ≡ 8 },
    ghost inputs_ok: { ascends 0 (map (λ t. t.atom) terms) ≡ true },
    ghost unused_ok: { spare_numbers (map (λ t. t.atom) terms) (flat_map le4 (map (λ t. t.weight) terms)) ≡ true },
    ghost weights_small: { ((k : ℕ) → slice_index (map (λ t. t.weight) terms) k < 2 ^ 32) },
    ghost small: { bound < 2 ^ 32 },
}
