//! What patterns are, the byte strings that belong to them, and the theorems that the table rests on.

#![tactic(auto)]

ghost use Rattle.language.specs.Theorems.{AtMostTwoLinksComeIn, EachPatternHasOneAnswer, EachUnitHasAPosition, EmptyFormsAndThePeriod, PredecessorsAreSettled, UnitsTellTheTree};

/// Each pattern is accepted, as one tree, or has one fault, and never both.
pub fn each_pattern_has_one_answer()
    ensures { EachPatternHasOneAnswer }
{}

/// A pattern has one tree: trees that are written with the same units are the same.
pub fn units_tell_the_tree()
    ensures { UnitsTellTheTree }
{}

/// Each unit of a pattern has a position of its own.
pub fn each_unit_has_a_position()
    ensures { EachUnitHasAPosition }
{}

/// No position has more than two predecessors.
pub fn at_most_two_links_come_in()
    ensures { AtMostTwoLinksComeIn }
{}

/// Each position has its predecessors in one order only.
pub fn predecessors_are_settled()
    ensures { PredecessorsAreSettled }
{}

/// What is empty stands for the empty string, and the period for each byte.
pub fn empty_forms_and_the_period()
    ensures { EmptyFormsAndThePeriod }
{}
