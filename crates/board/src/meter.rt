//! Meters: what a board shows of its touches, and how many it allows.

ghost use Rattle.board.specs.Boards.{Keeps, Make};
ghost use Rattle.board.specs.Meters.{Moves, touch_of};
ghost use Rattle.std.specs.Prelude.{◌≡◌, ℕ};

use crate::Touch;
use stops::Stop;

/// A meter of a make of board, which may note touches in memory of type W. Whatever the size of its board, it allows, shows
/// and counts what the make says.
pub trait Meter<W> {
    /// The values of the make's meter.
    ghost Gauge: { Type 0 };
    /// How a touch moves the meter, and what size and meter show.
    ghost make: { Make Gauge };
    /// Where the meter stands.
    ghost value: { W → Self → Gauge };
    /// The memory that the meter is over, and what it leaves alone there.
    ghost keeps: { Keeps (W × Self) };

    /// How many touches the meter allows at least.
    fn allowance(&self, memory: &W) -> u64
        ensures { (size : ℕ) → result ≡ make.allowed size (value memory.now self.now) };

    /// What the meter shows.
    fn reading(&self, memory: &W) -> u64
        ensures { (size : ℕ) → result ≡ make.shows size (value memory.now self.now) };

    /// Counts a touch. One that is not allowed is refused with stop 19, and changes nothing.
    fn count(&mut self, memory: &mut W, touch: Touch) -> Result<(), Stop>
        ensures kept { keeps.same (memory.old, self.old) (memory.new, self.new) }
        ensures done { Moves make (value memory.old self.old) (touch_of touch) (value memory.new self.new) result };
}
