//! Boards: cells that hold marks, with a meter that every access moves.

#![tactic(auto)]

mod counting;
mod meter;
mod metered;
mod row;
mod slice;
mod touch;
mod trace;

ghost use Rattle.std.specs.Prelude.{◌≡◌, ◌≤◌, List, length};
ghost use Rattle.board.specs.Boards.{Keeps, Make, Reads, Writes, most_cells};

pub use counting::{Counting, TouchMeter};
use mark::Mark;
pub use meter::Meter;
pub use metered::Metered;
pub use row::{Row, RowMeter};
pub use slice::MOST_CELLS;
use stops::Stop;
pub use touch::Touch;
pub use trace::{Trace, WordMeter};

/// A board. Its meaning is a list of marks and a meter; a make of board says by `make` how an access moves the meter and
/// what it shows. An accepted read or write is a touch.
pub trait Board {
    type M: Mark;

    /// The values of the make's meter.
    ghost Gauge: { Type 0 };
    /// How a touch moves the meter, and what size and meter show.
    ghost make: { Make Gauge };
    /// The marks.
    ghost cells: { Self → List Self.M };

    ghost meter: { Self → Gauge };
    /// There are never more than the most cells.
    ghost small: { (b : Self) → length (cells b) ≤ most_cells };
    /// The memory that the board is over, and what it leaves alone there.
    ghost keeps: { Keeps Self };

    /// The number of cells.
    fn size(&self) -> u64
        ensures { result ≡ length (cells self.now) };

    /// How many touches the board allows at least.
    fn allowance(&self) -> u64
        ensures { result ≡ make.allowed (length (cells self.now)) (meter self.now) };

    /// What the meter shows.
    fn reading(&self) -> u64
        ensures { result ≡ make.shows (length (cells self.now)) (meter self.now) };

    /// The mark of a cell.
    fn read(&mut self, cell: u64) -> Result<Self::M, Stop>
        ensures kept { keeps.same self.old self.new }
        ensures done { Reads make (cells self.old) (meter self.old) cell (cells self.new) (meter self.new) result };

    /// Puts a mark into a cell.
    fn write(&mut self, cell: u64, mark: Self::M) -> Result<(), Stop>
        ensures kept { keeps.same self.old self.new }
        ensures done { Writes make (cells self.old) (meter self.old) cell mark (cells self.new) (meter self.new) result };
}
