// What a reply promises, clause by clause.
ghost use Rattle.oracles.specs.Clauses.{ClausesFollow, ClausesSuffice};

// The clauses, one by one, say just what `Answers` says.
pub fn clauses_stand()
    ensures follow { ClausesFollow }
    ensures suffice { ClausesSuffice }
{}
