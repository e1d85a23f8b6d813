// A partial plan: each atom is in, out or still open.
ghost use Rattle.std.specs.Prelude.{◌≡◌, ℕ, ◌<◌, if◌then◌else◌, ◌≢◌};
ghost use Rattle.semantics.specs.Program.{atom_limit};
ghost use Rattle.semantics.specs.Check.{size_below};
ghost use Rattle.plans.specs.Bits.{marked, bytes_of};
ghost use Rattle.plans.specs.Partial.{status_at, place_at, full, opened, Decides, truth_of, Opens, LowestOpen, removed};

use crate::atom_set::AtomSet;
use crate::removal::Removal;
use std::array;

// Three words of the subject: of an `Option<bool>` a reader would have to guess which atom is out.
#[derive(Clone, Copy, Debug, PartialEq, Eq)]
pub enum Status {
    Open,
    In,
    Out,
}

impl Status {
    fn opened(self) -> Status
        ensures { result ≡ opened self }
    {
        match self {
            Status::Out => Status::Out,
            Status::In => Status::Open,
            Status::Open => Status::Open,
        }
    }

    // Whether the atom is in, where that is settled.
    pub fn truth(self) -> Option<bool>
        ensures { result ≡ truth_of self }
    {
        match self {
            Status::Open => None,
            Status::In => Some(true),
            Status::Out => Some(false),
        }
    }
}

#[derive(Clone, Copy)]
pub struct PartialPlan {
    marks: [Status; 255],
}

fn status_in(set: &AtomSet, atom: usize) -> Status
    requires { atom < atom_limit }
    ensures { result ≡ (if marked set.now.bytes atom then Status.In else Status.Out) }
{
    if set.contains(atom as u8) {
        Status::In
    } else {
        Status::Out
    }
}

// The plan of a set: its atoms are in, all others out.
impl From<&AtomSet> for PartialPlan {
    ghost use Rattle.plans.specs.declared.partial_plan.Status.TheVariants.{In, Out};

    ghost from_gives = { λ set plan. (a : ℕ) → a < atom_limit → status_at plan a ≡ (if marked set.now.bytes a then In else Out) };

    fn from(set: &AtomSet) -> PartialPlan {
        let marks = array::from_fn(|atom| status_in(set, atom));
        PartialPlan { marks }
    }
}

impl PartialPlan {
    // What is no atom is out.
    pub fn status(&self, atom: u8) -> Status
        ensures { result ≡ place_at self.now atom }
    {
        if atom < 255 {
            self.marks[atom as usize]
        } else {
            Status::Out
        }
    }

    // Whether an atom is in; what is no atom is not.
    #[tactic(auto, using(crate::proofs::Partial::full_place))]
    pub fn has(&self, atom: u8) -> bool
        ensures { result ≡ full self.now atom }
    {
        self.status(atom) == Status::In
    }

    fn put(&mut self, atom: u8, status: Status)
        requires { atom < atom_limit }
        ensures here { status_at self.new atom ≡ status }
        ensures rest { (a : ℕ) → (a ≢ atom) → status_at self.new a ≡ status_at self.old a }
    {
        self.marks[atom as usize] = status;
    }

    // The same plan with one atom's status changed.
    pub fn decided(&self, atom: u8, status: Status) -> PartialPlan
        ensures { Decides self.now atom status result }
    {
        let mut next = *self;
        if atom < 255 {
            next.put(atom, status);
        }
        next
    }

    // The same plan with each atom that is in open.
    pub fn opened(&self) -> PartialPlan
        ensures { Opens self.now result }
    {
        // By places of the array, since its `map` moves the statuses into an iterator first and takes twenty times as long.
        let marks = array::from_fn(|atom| self.marks[atom].opened());
        PartialPlan { marks }
    }

    pub fn lowest_open(&self) -> Option<u8>
        ensures { LowestOpen self.now result }
    {
        // By places of the array, since a search through a range of atoms takes twice as long.
        self.marks
            .iter()
            .position(|status| *status == Status::Open)
            .map(|atom| atom as u8)
    }

    // How many atoms are in.
    #[tactic(auto, using(crate::proofs::Partial::size_none, crate::proofs::Partial::size_more))]
    pub fn count_in(&self) -> usize
        ensures { result ≡ size_below atom_limit (full self.now) }
    {
        // A loop, since a chain of filter and count takes nearly twice as long, and each check counts.
        let mut count = 0;
        for atom in 0..255u8 {
            if self.has(atom) {
                count += 1;
            }
        }
        count
    }

    // The atoms that are in here and not in `stays`.
    pub fn removed(&self, stays: &PartialPlan) -> AtomSet
        ensures { result.bytes ≡ bytes_of (removed self.now stays.now) }
    {
        Removal { plan: self, stays }.set()
    }
}
