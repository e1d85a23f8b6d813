// A plan: the atoms that are in, and a label.
ghost use Rattle.std.specs.Prelude.{◌^◌, ◌<◌};

use plans::AtomSet;

#[derive(Clone, Copy)]
pub struct Plan {
    pub marks: AtomSet,
    pub label: u32,
    ghost small: { label < 2 ^ 32 },
}
