// Weeks: up to eight inputs with a day each, how many weeks are wanted, and the weekday that a week begins with.
ghost use Rattle.std.specs.Prelude.{◌≡◌, ℕ, ◌^◌, ◌<◌, ◌≤◌, true, map, length, slice_index};
ghost use Rattle.std.specs.List.{flat_map};
ghost use Rattle.records.specs.Atoms.{ascends};
ghost use Rattle.records.specs.Numbers.{le4};
ghost use Rattle.sources.specs.Spare.{spare_numbers};

// Days are counted from 1970-01-01.
#[derive(Clone, Copy, Debug, PartialEq, Eq)]
pub struct Dated {
    pub atom: u8,
    pub day: u32,
}

#[derive(Clone, Copy, Debug, PartialEq, Eq)]
pub struct WeekSource {
    pub terms: [Dated; 8],
    pub wanted: u8,
    // 0 is Monday, 6 is Sunday.
    pub first: u8,
    ghost terms_long: { length terms ≡ 8 },
    ghost inputs_ok: { ascends 0 (map (λ t. t.atom) terms) ≡ true },
    ghost unused_ok: { spare_numbers (map (λ t. t.atom) terms) (flat_map le4 (map (λ t. t.day) terms)) ≡ true },
    ghost days_small: { ((k : ℕ) → slice_index (map (λ t. t.day) terms) k < 2 ^ 32) },
    ghost wanted_ok: { (0 < wanted) × (wanted ≤ 8) },
    ghost first_ok: { first < 7 },
}
