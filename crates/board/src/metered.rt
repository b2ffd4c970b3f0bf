//! A board over a lent slice of marks.

ghost use Rattle.board.specs.Boards.{most_cells};
ghost use Rattle.board.specs.Lent.{SameLoan, lent_small};
ghost use Rattle.board.specs.Meters.{Admits, metered, touch_of};
ghost use Rattle.std.specs.Prelude.{length, min, take};

use crate::slice::{cells_in, index, put};
use crate::{Board, Meter, Touch};
use mark::Mark;
use stops::Stop;

/// A board over a lent slice of marks, with a meter and its memory. The memory is a field of its own, so that a lender knows
/// what it holds when the board is gone.
#[derive(Drop)]
pub struct Metered<'a, M, W, G> {
    pub(crate) marks: &'a mut [M],
    pub(crate) memory: W,
    pub(crate) meter: G,
}

impl<'a, M: Mark, G: Meter<()> + Default> Metered<'a, M, (), G> {
    /// A board that has made no touch.
    pub fn new(marks: &'a mut [M]) -> Metered<'a, M, (), G>
        ensures marks { SameLoan result.marks marks.entry }
        ensures meter { G.is_default result.meter }
    {
        Metered {
            marks,
            memory: (),
            meter: G::default(),
        }
    }
}

/// Where the cell of a touch lies in a slice of marks of this length, when the meter has counted the touch. Stop 18 where
/// there is no such cell; where there is, stop 19 if the meter allows no touch.
fn admit<W, G: Meter<W>>(
    meter: &mut G,
    memory: &mut W,
    len: usize,
    touch: Touch,
) -> Result<usize, Stop>
    ensures kept { G.keeps.same (memory.old, meter.old) (memory.new, meter.new) }
    ensures done { Admits G.make (min most_cells len) (G.value memory.old meter.old) (touch_of touch) (G.value memory.new meter.new) result }
{
    let at = index(len, touch.cell())?;
    meter.count(memory, touch)?;
    Ok(at)
}

impl<'a, M: Mark, W, G: Meter<W>> Board for Metered<'a, M, W, G> {
    type M = M;

    ghost Gauge = { G.Gauge };

    ghost make = { G.make };

    ghost cells = { λ b. take most_cells b.marks.now };

    ghost meter = { λ b. G.value b.memory b.meter };

    ghost small = { λ b. lent_small b.marks.now };

    ghost keeps = { metered G.keeps };

    fn size(&self) -> u64 {
        cells_in(self.marks.len()) as u64
    }

    fn allowance(&self) -> u64 {
        self.meter.allowance(&self.memory)
    }

    fn reading(&self) -> u64 {
        self.meter.reading(&self.memory)
    }

    fn read(&mut self, cell: u64) -> Result<M, Stop> {
        let len = self.marks.len();
        let at = admit(&mut self.meter, &mut self.memory, len, Touch::Read(cell))?;
        Ok(self.marks[at])
    }

    fn write(&mut self, cell: u64, mark: M) -> Result<(), Stop> {
        let len = self.marks.len();
        let at = admit(&mut self.meter, &mut self.memory, len, Touch::Write(cell))?;
        put(self.marks, at, mark);
        Ok(())
    }
}
