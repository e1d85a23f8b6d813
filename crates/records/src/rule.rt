// A rule that its record's rules allow: a head that ascends, literals and then nothing, and not empty.
ghost use Rattle.std.specs.Prelude.{◌≡◌, ◌^◌, ◌<◌, true, not, ◌&&◌, length, ◌==◌, slice_index};
ghost use Rattle.std.specs.List.{flat_map};
ghost use Rattle.records.specs.Atoms.{ascends};
ghost use Rattle.records.specs.Literals.{pair_of, body_rule};

use crate::literal::Literal;

#[derive(Clone, Copy)]
pub struct Rule {
    pub head: [u8; 8],
    pub body: [Option<Literal>; 16],
    pub label: u32,
    ghost head_long: { length head ≡ 8 },
    ghost head_ok: { ascends 0 head ≡ true },
    ghost body_long: { length body ≡ 16 },
    ghost body_ok: { body_rule (flat_map pair_of body) ≡ true },
    ghost small: { label < 2 ^ 32 },
    ghost filled: { not (slice_index head 0 == 255 && slice_index (flat_map pair_of body) 0 == 0) ≡ true },
}
