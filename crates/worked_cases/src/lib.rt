// Worked cases, small enough to check by hand, so that a reader can believe the definitions.
#![tactic(auto)]

ghost use Rattle.worked_cases.specs.Table.{WorkedCases};

// Computes nothing: its contract is the table of the cases.
pub fn worked_cases_hold()
    ensures { WorkedCases }
{}
