// The published definitions, and what is proved of them: each function's contract names a theorem.
#![tactic(auto)]

ghost use Rattle.semantics.specs.Check.{CheckJudges, Crowded, NamedFew};
ghost use Rattle.semantics.specs.Examples.{Examples};
ghost use Rattle.semantics.specs.Theorems.{JudgeRight};

// The judgement is the lowest broken rule, else the earliest unfounded set, else neither exists.
pub fn judge_is_right()
    ensures { JudgeRight }
{}

// A check that is not refused answers the judgement.
pub fn check_judges()
    ensures { CheckJudges }
{}

// A set that a check names has only atoms that are in, and no more than are searched.
pub fn named_sets_are_few()
    ensures { NamedFew }
{}

// The refusals of a check come in their order.
pub fn crowded_checked()
    ensures { Crowded }
{}

// Twelve plans have the judgements that the definitions give.
pub fn examples_judged()
    ensures { Examples }
{}
