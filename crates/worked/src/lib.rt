#![tactic(auto)]
// Small rules, each with what the definitions make of it: found by computation, on the scalar host.
ghost use Rattle.worked.specs.Worked.{WorkedRules};

pub fn worked_rules()
    ensures { WorkedRules }
{}
