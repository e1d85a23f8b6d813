// What a check answers, and why it is refused.
ghost use Rattle.std.specs.Prelude.{◌≡◌};
ghost use Rattle.judge.specs.CallFaults.{call_name};

use records::{Layer, Named};

// The project's fixed form of an answer: the set itself stands in the caller's place.
#[derive(Clone, Copy, Debug, PartialEq, Eq)]
pub enum Verdict {
    Stands,
    // The number of the lowest broken rule.
    Broken(usize),
    // The place has the earliest unfounded set.
    Unfounded,
}

#[derive(Clone, Copy, Debug, PartialEq, Eq)]
pub enum CallFault {
    // The place for the set is not 32 bytes long.
    Place = 1,
    // A rule names a source that the oracle does not have.
    UnknownSource = 10,
    // More atoms are in than are searched.
    Crowded = 25,
}

impl CallFault {
    pub fn named(self) -> Named
        ensures { result ≡ call_name self }
    {
        Named {
            layer: Layer::Call,
            number: self as usize,
            byte: 0,
        }
    }
}
