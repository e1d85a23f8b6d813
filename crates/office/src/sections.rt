// How many records of each kind a file has. A run has at most 512 records.
ghost use Rattle.std.specs.Prelude.{◌+◌, ◌≤◌};

#[derive(Clone, Copy)]
pub struct Sections {
    pub tables: usize,
    pub sums: usize,
    pub weeks: usize,
    pub rules: usize,
    pub plans: usize,
    ghost few: { tables + sums + weeks + rules + plans ≤ 512 },
}
