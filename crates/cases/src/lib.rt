// Worked cases: small districts with the plans that the definitions give of them.
#![tactic(auto)]

ghost use Rattle.cases.specs.Listed.{CasesHold};

// Every listed case has the result that is listed with it.
pub fn worked_cases()
    ensures { CasesHold }
{}
