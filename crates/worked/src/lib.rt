//! Worked cases of the definitions, computed by the prover: numbers that a
//! reader can check by hand.
#![tactic(auto)]

ghost use Rattle.worked.specs.Cases.{WorkedCases};
ghost use Rattle.worked.specs.SheetCases.{SheetCases};

/// Does nothing; its contract is the check.
pub fn worked_cases()
    ensures cases { WorkedCases }
    ensures sheet { SheetCases }
{}
