//! Worked cases: patterns with their tables or stops, patterns and frames with the marks and verdicts that the definitions give them,
//! and calls with what they are told.

#![tactic(auto)]

ghost use Rattle.calls_cases.specs.Cases.{WorkedCasesHold};

/// Each worked case follows from the definitions.
pub fn worked_cases_hold()
    ensures { WorkedCasesHold }
{}
