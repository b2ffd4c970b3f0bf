//! What cells and verdicts mean: the theorems that the screen rests on.

#![tactic(auto)]

ghost use Rattle.language.specs.Ways.{WaysSpellTheLanguage};
ghost use Rattle.theory.specs.Theorems.{CellsHoldAfterEachByte, TablesTellThePattern, TheLastCellHoldsTheVerdict, TheTailIsTheSmallestStart, TwoScansSuffice, YesExactlyWhenAllBelongs};

/// The bytes that lead from position 0 to the END are those that belong to the pattern's language.
pub fn ways_spell_the_language()
    ensures { WaysSpellTheLanguage }
{}

/// After two scans each cell holds the join of the marks that stood wherever links lead to it from.
pub fn two_scans_suffice<M>()
    ensures { TwoScansSuffice M }
{}

/// After each byte every cell holds the join of seed(p) over each place p from which the bytes lead to it.
pub fn cells_hold_after_each_byte<M>()
    ensures { CellsHoldAfterEachByte M }
{}

/// At the END stands the join of seed(p) over each place p from which on the frame belongs to the language.
pub fn the_last_cell_holds_the_verdict<M>()
    ensures { TheLastCellHoldsTheVerdict M }
{}

/// A yes/no verdict is yes exactly when all of the frame belongs.
pub fn yes_exactly_when_all_belongs()
    ensures { YesExactlyWhenAllBelongs }
{}

/// A tail verdict is the smallest start from which on the frame belongs, or nothing exactly when there is none.
pub fn the_tail_is_the_smallest_start()
    ensures { TheTailIsTheSmallestStart }
{}

/// The words of a table tell the links and the letters of its pattern, and units are written by one tree only.
pub fn tables_tell_the_pattern()
    ensures { TablesTellThePattern }
{}
