//! The movements of a frame on its cells, apart from any board.

#![tactic(auto)]

ghost use Rattle.method.specs.Theorems.{ByteStepsAgree, ChangingByteStepLeavesOtherCells, MovementsLeaveOtherCells};

/// A movement under a rule that ends at n changes no cell above n, and not the number of cells.
pub fn movements_leave_other_cells<M>()
    ensures { MovementsLeaveOtherCells M }
{}

/// A byte step in which marks may change as they come over, under a rule that ends at n, changes no cell above n, and not the number
/// of cells.
pub fn changing_byte_step_leaves_other_cells<M>()
    ensures { ChangingByteStepLeavesOtherCells M }
{}

/// Where no mark changes as it comes over, the two byte steps leave the same cells.
pub fn byte_steps_agree<M>()
    ensures { ByteStepsAgree M }
{}
