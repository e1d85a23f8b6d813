// An oracle has numbered sources, each with a truth on every interpretation.
ghost use Rattle.std.specs.Prelude.{◌≡◌, cond};
ghost use Rattle.std.specs.Option.{option_map_or};
ghost use Rattle.semantics.specs.Program.{Meaning};
ghost use Rattle.oracles.specs.Answers.{Answers};
ghost use Rattle.oracles.specs.declared.oracle.Reply.TheVariants.{Yes, No, Open};

use plans::PartialPlan;

// The most sources that an oracle may have.
pub const SOURCE_LIMIT: usize = 64;

// What an oracle says of a source while atoms may be open.
// These four words are the fixed form of an oracle's answer, so it is no Option of a truth.
#[derive(Clone, Copy, Debug, PartialEq, Eq)]
pub enum Reply {
    NoSource,
    Yes,
    No,
    Open,
}

// Of a source that there is: its truth, where the plan settles it.
impl From<Option<bool>> for Reply {
    ghost from_gives = { λ truth reply. reply ≡ option_map_or (λ is. cond is Yes No) truth Open };

    fn from(truth: Option<bool>) -> Reply {
        match truth {
            Some(true) => Reply::Yes,
            Some(false) => Reply::No,
            None => Reply::Open,
        }
    }
}

pub trait Oracle {
    ghost meaning: { Self → Meaning };

    fn count(&self) -> usize
        ensures { result ≡ (meaning self.now).count };

    fn consult(&self, number: usize, plan: &PartialPlan) -> Reply
        ensures answers { Answers (meaning self.now) number plan.now result };
}
