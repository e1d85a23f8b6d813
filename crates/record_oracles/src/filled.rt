// A partial plan with its open atoms all in, or all out.
ghost use Rattle.std.specs.Prelude.{◌≡◌};
ghost use Rattle.record_oracles.specs.Inputs.{atoms_in};

use plans::PartialPlan;

#[derive(Clone, Copy)]
pub(crate) struct Filled<'a> {
    pub plan: &'a PartialPlan,
    pub open_in: bool,
}

impl<'a> Filled<'a> {
    // Whether the atom is in.
    pub(crate) fn has(self, atom: u8) -> bool
        ensures { result ≡ atoms_in self.entry atom }
    {
        self.plan.status(atom).truth().unwrap_or(self.open_in)
    }
}
