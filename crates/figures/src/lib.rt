//! Worked days: what pruning leaves, the floors and the answers to plans, by the definitions that the calls' contracts cite.

#![tactic(auto)]

ghost use Rattle.figures.specs.Worked.{WorkedDays};

/// The worked days, by the definitions of the calls.
pub fn worked_days()
    ensures { WorkedDays }
{}
