// The atoms of a plan that do not stay, as plan bits.
ghost use Rattle.std.specs.Prelude.{◌≡◌, ◌<◌};
ghost use Rattle.plans.specs.Bits.{byte_of, bytes_of};
ghost use Rattle.plans.specs.Partial.{removed};

use crate::atom_set::AtomSet;
use crate::partial_plan::PartialPlan;
use std::array;

#[derive(Clone, Copy)]
pub(crate) struct Removal<'a> {
    pub(crate) plan: &'a PartialPlan,
    pub(crate) stays: &'a PartialPlan,
}

impl Removal<'_> {
    fn contains(&self, atom: u8) -> bool
        ensures { result ≡ removed self.now.plan.now self.now.stays.now atom }
    {
        self.plan.has(atom) && !self.stays.has(atom)
    }

    // The highest bit is the last atom's.
    fn byte(&self, k: usize) -> u8
        requires { k < 32 }
        ensures { result ≡ byte_of (removed self.now.plan.now self.now.stays.now) k }
    {
        let first = 8 * k as u8;
        let mut byte = 0u8;
        for j in (0..8u8).rev() {
            byte = 2 * byte + u8::from(self.contains(first + j));
        }
        byte
    }

    pub(crate) fn set(&self) -> AtomSet
        ensures { result.bytes ≡ bytes_of (removed self.now.plan.now self.now.stays.now) }
    {
        AtomSet::of_bits(array::from_fn(|k| self.byte(k)))
    }
}
