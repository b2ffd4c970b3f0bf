//! The screen: what it does on a board. What a call of a frame does is made whole or, where the board has not enough for it, not at all.

#![tactic(auto)]

mod movements;

ghost use Rattle.screen.specs.Schedules.{ADroppedFrameTakesSoManyTouches, AFrameTakesSoManyTouches};

pub use movements::{begin_cells, feed_cells, finish_cells, wipe_cells};

/// A finished frame of m bytes under a rule that ends at n takes 10nm + 10n + 9m + 11 touches.
pub fn a_frame_takes_so_many_touches()
    ensures { AFrameTakesSoManyTouches }
{}

/// A frame that is dropped after m bytes under a rule that ends at n takes 10nm + 10n + 9m + 10 touches.
pub fn a_dropped_frame_takes_so_many_touches()
    ensures { ADroppedFrameTakesSoManyTouches }
{}
