//! The row board.

ghost use Rattle.board.specs.Makes.{Rows, rows};
ghost use Rattle.board.specs.Meters.{nothing_lent};
ghost use Rattle.std.specs.Prelude.{◌≡◌, None};

use crate::{Meter, Metered, Touch};
use stops::Stop;

/// So many cells are a row.
const CELLS_IN_ROW: u64 = 16;

/// Counts the rows that are opened, modulo 2^64: a touch opens its row unless the touch before was in that row. It allows
/// as many touches as one likes.
#[derive(Drop)]
pub struct RowMeter {
    last: Option<u64>,
    opened: u64,
}

/// A meter that has opened no row.
impl Default for RowMeter {
    ghost is_default = { λ m. (m.last ≡ None) × (m.opened ≡ 0) };

    fn default() -> RowMeter {
        RowMeter {
            last: None,
            opened: 0,
        }
    }
}

/// A board over a lent slice of marks that counts the rows that it opens.
pub type Row<'a, M> = Metered<'a, M, (), RowMeter>;

impl Meter<()> for RowMeter {
    ghost Gauge = { Rows };

    ghost make = { rows };

    ghost value = { λ memory m. record { last = m.last; opened = m.opened } };

    ghost keeps = { nothing_lent };

    fn allowance(&self, _memory: &()) -> u64 {
        u64::MAX
    }

    fn reading(&self, _memory: &()) -> u64 {
        self.opened
    }

    fn count(&mut self, _memory: &mut (), touch: Touch) -> Result<(), Stop> {
        let row = touch.cell() / CELLS_IN_ROW;
        if self.last != Some(row) {
            self.opened = self.opened.wrapping_add(1);
        }
        self.last = Some(row);
        Ok(())
    }
}
